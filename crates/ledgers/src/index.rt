// Index ledgers: the newest conflict is looked up.
ghost use Rattle.std.specs.Prelude.{◌≡◌};
ghost use Rattle.entries.specs.Items.{flags_of};
ghost use Rattle.entries.specs.Lists.{writes};
ghost use Rattle.ledgers.specs.Index.{Latest, Tells, raised};
ghost use Rattle.ledgers.specs.Finders.{FitsAdded};
ghost use Rattle.ledgers.specs.IndexLemmas.{tells-single, tells-trimmed};

use crate::finder::Finder;
use crate::log::Log;
use crate::log_ledger::LogLedger;
use entries::{ItemSet, WriteList};

// Every item that a write can name.
const ITEMS: usize = 256;

// For each of the 256 items, so no map is needed, the version that wrote it last; at or below the floor such a version counts no more.
#[derive(Drop)]
pub struct Index {
    last: [u32; ITEMS],
}

pub type IndexLedger<'a> = LogLedger<'a, Index>;

impl Index {
    // The latest version that the index has for one of the items, or 0.
    fn latest(&self, items: &ItemSet) -> u32
        ensures { Latest (flags_of items.now) self.now.last 256 result }
    {
        // a loop: of the chain `filter`, `map`, `max` over the items the proof did not close
        let mut latest = 0;
        for item in 0..=u8::MAX {
            if items.contains(item) {
                latest = latest.max(self.last[usize::from(item)]);
            }
        }
        latest
    }
}

impl Finder for Index {
    ghost fits = { λ m i. Tells m i.last };

    ghost single = { λ m i. tells-single m i.last };

    ghost trims = { λ m m' i. tells-trimmed m m' i.last };

    fn new() -> Index {
        Index { last: [0; ITEMS] }
    }

    fn note(&mut self, list: &WriteList, version: u32)
        ensures added { FitsAdded (λ m i. Tells m i.last) self.old (writes list.now) version self.new }
        ensures index { self.new.last ≡ raised self.old.last (writes list.now) version }
    {
        for w in list.as_slice() {
            self.last[usize::from(w.item)] = version;
        }
    }

    fn newest(&self, _log: &Log, snapshot: u32, items: &ItemSet) -> Option<u32> {
        let latest = self.latest(items);
        (latest > snapshot).then_some(latest)
    }
}
