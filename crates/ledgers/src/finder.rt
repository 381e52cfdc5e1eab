// How a ledger finds the newest conflict: by what it noted of the sets, or in the log itself.
ghost use Rattle.entries.specs.Lists.{writes};
ghost use Rattle.entries.specs.Items.{flags_of};
ghost use Rattle.ledgers.specs.Model.{LedgerModel};
ghost use Rattle.ledgers.specs.Logs.{log_model};
ghost use Rattle.ledgers.specs.Finders.{FitsFresh, FitsAdded, FitsTrimmed, Finds};

use crate::log::Log;
use entries::{ItemSet, WriteList};

// No other crate can give one, since its calls take the log.
pub trait Finder: Drop {
    // what is noted is true of the ledger
    ghost fits: { LedgerModel → Self → Type 0 };

    // there is one proof of it at most
    ghost single: { (m : LedgerModel) (f : Self) → IsProp (fits m f) };

    // Nothing is noted: no set was added.
    fn new() -> Self
        ensures { FitsFresh fits result };

    // Notes the set that was added as this version.
    fn note(&mut self, list: &WriteList, version: u32)
        ensures { FitsAdded fits self.old (writes list.now) version self.new };

    // The newest version above the snapshot whose set names one of the items.
    fn newest(&self, log: &Log, snapshot: u32, items: &ItemSet) -> Option<u32>
        ensures { Finds fits self.now (log_model log.now) snapshot (flags_of items.now) result };

    // what was noted stays true when sets are let go
    ghost trims: { FitsTrimmed fits };
}
