// The calls on a ledger over a log.
ghost use Rattle.std.specs.Prelude.{◌≡◌, length};
ghost use Rattle.ledgers.specs.Logs.{log_model, cells_of, fresh};

use super::LogLedger;
use crate::finder::Finder;
use crate::ledger::{Ledger, LedgerRefusal};
use crate::log::Log;
use entries::{ItemSet, WriteList};

impl<'a, F: Finder> LogLedger<'a, F> {
    // A ledger without sets, with room for as many as the slice has.
    pub fn new(entries: &'a mut [WriteList]) -> LogLedger<'a, F>
        ensures { log_model result.log ≡ fresh (length entries.old) }
    {
        LogLedger {
            log: Log::new(entries),
            finder: F::new(),
        }
    }

    // The slice again.
    pub fn into_buffer(self) -> &'a mut [WriteList]
        ensures cells { result.now ≡ cells_of self.entry.log }
        ensures room { length result.now ≡ (log_model self.entry.log).capacity }
    {
        let LogLedger { log, finder: _ } = self;
        log.into_cells()
    }
}

impl<'a, F: Finder> Ledger for LogLedger<'a, F> {
    ghost means = { λ l. log_model l.log };

    fn clear(&mut self) {
        self.log.clear();
        self.finder = F::new();
    }

    fn newest(&self, snapshot: u32, items: &ItemSet) -> Result<Option<u32>, LedgerRefusal> {
        if snapshot < self.log.floor {
            return Err(LedgerRefusal::BelowFloor(self.log.floor));
        }
        Ok(self.finder.newest(&self.log, snapshot, items))
    }

    fn add(&mut self, list: &WriteList) -> Result<u32, LedgerRefusal> {
        let version = self.log.add(list)?;
        self.finder.note(list, version);
        Ok(version)
    }

    fn fetch(&self, version: u32) -> WriteList {
        self.log.fetch(version)
    }

    fn trim(&mut self, to: u32) {
        self.log.trim(to);
    }

    fn floor(&self) -> u32 {
        self.log.floor
    }

    fn head(&self) -> u32 {
        self.log.head()
    }

    fn capacity(&self) -> usize {
        self.log.ring.capacity()
    }
}
