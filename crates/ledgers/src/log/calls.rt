// The calls on a log, each by the ledger that it stands for.
ghost use Rattle.std.specs.Prelude.{◌≡◌, length};
ghost use Rattle.std.specs.Option.{option_map};
ghost use Rattle.entries.specs.Lists.{writes};
ghost use Rattle.ledgers.specs.Model.{head_of, cleared, add_answer, after_add, entry_of, fetched, trimmed};
ghost use Rattle.ledgers.specs.Logs.{log_model, cells_of, fresh};

use super::Log;
use crate::ledger::LedgerRefusal;
use entries::{Write, WriteList};
use rings::ring::Ring;

const LAST_VERSION: u32 = 999999;

impl<'a> Log<'a> {
    // A log with no sets, at floor 0.
    pub(crate) fn new(cells: &'a mut [WriteList]) -> Log<'a>
        ensures { log_model result ≡ fresh (length cells.old) }
    {
        Log {
            ring: Ring::new(cells),
            floor: 0,
        }
    }

    // The cells again.
    pub(crate) fn into_cells(self) -> &'a mut [WriteList]
        ensures { result.now ≡ cells_of self.entry }
    {
        let Log { ring, floor: _ } = self;
        ring.into_cells()
    }

    // Lets every set go, and begins at floor 0 again.
    pub(crate) fn clear(&mut self)
        ensures { log_model self.new ≡ cleared (log_model self.old) }
    {
        self.ring.clear();
        self.floor = 0;
    }

    // The newest version.
    pub(crate) fn head(&self) -> u32
        ensures { result ≡ head_of (log_model self.now) }
    {
        self.floor + self.ring.len() as u32
    }

    // The list of a version above the floor and up to the head; no other has one.
    fn entry(&self, version: u32) -> Option<&WriteList>
        ensures { option_map (λ l. writes l.now) result ≡ entry_of (log_model self.now) version }
    {
        let place = version.checked_sub(self.floor + 1)?;
        self.ring.get(place as usize)
    }

    // The set of a version, where it lies; empty where the log has none.
    pub(crate) fn set(&self, version: u32) -> &[Write]
        ensures { result.now ≡ fetched (log_model self.now) version }
    {
        match self.entry(version) {
            Some(list) => list.as_slice(),
            None => &[],
        }
    }

    // The list of a version, empty where the log has none.
    pub(crate) fn fetch(&self, version: u32) -> WriteList
        ensures { writes result ≡ fetched (log_model self.now) version }
    {
        self.entry(version)
            .copied()
            .unwrap_or_else(WriteList::empty)
    }

    // One more set, of the version after the head.
    pub(crate) fn add(&mut self, list: &WriteList) -> Result<u32, LedgerRefusal>
        ensures answer { result ≡ add_answer (log_model self.old) (writes list.now) }
        ensures after { log_model self.new ≡ after_add (writes list.now) (log_model self.old) }
    {
        let head = self.head();
        if list.len() == 0 {
            return Err(LedgerRefusal::NoWrites);
        }
        if head >= LAST_VERSION {
            return Err(LedgerRefusal::LastVersion);
        }
        if self.ring.len() >= self.ring.capacity() {
            return Err(LedgerRefusal::Full);
        }
        let _ = self.ring.push(*list);
        Ok(head + 1)
    }

    // Lets the sets of the versions up to `to` go.
    pub(crate) fn trim(&mut self, to: u32)
        ensures { log_model self.new ≡ trimmed to (log_model self.old) }
    {
        let floor = to.min(self.head());
        if floor > self.floor {
            self.ring.drop_first((floor - self.floor) as usize);
            self.floor = floor;
        }
    }
}
