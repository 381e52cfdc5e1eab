// Scan ledgers: the newest conflict is searched for.
ghost use Rattle.std.specs.Prelude.{⊤};
ghost use Rattle.std.specs.Coded.{Unit-prop};

use crate::finder::Finder;
use crate::log::Log;
use crate::log_ledger::LogLedger;
use entries::{ItemSet, WriteList};

// The log is searched from the head down; nothing is noted.
#[derive(Clone, Copy, PartialEq, Eq, Debug)]
pub struct Scan;

pub type ScanLedger<'a> = LogLedger<'a, Scan>;

impl Finder for Scan {
    ghost fits = { λ m s. ⊤ };

    ghost single = { λ m s. Unit-prop };

    ghost trims = { λ m m' s less h. h };

    fn new() -> Scan {
        Scan
    }

    fn note(&mut self, _list: &WriteList, _version: u32) {}

    fn newest(&self, log: &Log, snapshot: u32, items: &ItemSet) -> Option<u32> {
        let mut found = None;
        'search: for version in (snapshot.saturating_add(1)..=log.head()).rev() {
            for w in log.set(version) {
                if items.contains(w.item) {
                    found = Some(version);
                    break 'search;
                }
            }
        }
        found
    }
}
