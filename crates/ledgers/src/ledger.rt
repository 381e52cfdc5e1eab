// What a ledger offers: the write sets of the versions above its floor.
ghost use Rattle.std.specs.Prelude.{◌≡◌};
ghost use Rattle.entries.specs.Lists.{writes};
ghost use Rattle.entries.specs.Items.{flags_of};
ghost use Rattle.ledgers.specs.Model.{LedgerModel, head_of, cleared, newest_answer, add_answer, after_add, fetched, trimmed};

use entries::{ItemSet, WriteList};

mod told;

// Why a call on a ledger was refused.
#[derive(Clone, Copy, PartialEq, Eq, Debug)]
pub enum LedgerRefusal {
    // a snapshot below the floor, which is told
    BelowFloor(u32),
    // a later version wrote one of the items: the newest such version
    Conflict(u32),
    // a list without writes
    NoWrites,
    // no version comes after 999,999
    LastVersion,
    // no room for another set until the ledger is trimmed
    Full,
}

pub trait Ledger {
    // the floor, the sets of the versions above it, and how many sets there is room for
    ghost means: { Self → LedgerModel };

    // Floor and head 0, no sets.
    fn clear(&mut self)
        ensures { means self.new ≡ cleared (means self.old) };

    // The newest version above the snapshot whose set names one of the items.
    fn newest(&self, snapshot: u32, items: &ItemSet) -> Result<Option<u32>, LedgerRefusal>
        ensures { result ≡ newest_answer (means self.now) snapshot (flags_of items.now) };

    // Numbers the list as the set of the next version, which it answers.
    fn add(&mut self, list: &WriteList) -> Result<u32, LedgerRefusal>
        ensures answer { result ≡ add_answer (means self.old) (writes list.now) }
        ensures after { means self.new ≡ after_add (writes list.now) (means self.old) };

    // The set of a version above the floor and up to the head; an empty list for any other.
    fn fetch(&self, version: u32) -> WriteList
        ensures { writes result ≡ fetched (means self.now) version };

    // Raises the floor to the version, to the head at most.
    fn trim(&mut self, to: u32)
        ensures { means self.new ≡ trimmed to (means self.old) };

    // The version up to which sets were let go.
    fn floor(&self) -> u32
        ensures { result ≡ (means self.now).floor };

    // The newest version.
    fn head(&self) -> u32
        ensures { result ≡ head_of (means self.now) };

    // How many sets there is room for.
    fn capacity(&self) -> usize
        ensures { result ≡ (means self.now).capacity };
}

// A ledger that is lent: a caller that keeps it lends it, so each call is handed on.
impl<'a, L: Ledger> Ledger for &'a mut L {
    ghost means = { λ l. L.Ledger.means l.now };

    fn clear(&mut self) {
        (**self).clear();
    }

    fn newest(&self, snapshot: u32, items: &ItemSet) -> Result<Option<u32>, LedgerRefusal> {
        (**self).newest(snapshot, items)
    }

    fn add(&mut self, list: &WriteList) -> Result<u32, LedgerRefusal> {
        (**self).add(list)
    }

    fn fetch(&self, version: u32) -> WriteList {
        (**self).fetch(version)
    }

    fn trim(&mut self, to: u32) {
        (**self).trim(to);
    }

    fn floor(&self) -> u32 {
        (**self).floor()
    }

    fn head(&self) -> u32 {
        (**self).head()
    }

    fn capacity(&self) -> usize {
        (**self).capacity()
    }
}
