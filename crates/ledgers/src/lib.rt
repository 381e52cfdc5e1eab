// The certifier's log: the write sets that were numbered, by search and by index.
#![tactic(auto)]

pub mod filing;
pub mod finder;
pub mod index;
pub mod laws;
pub mod ledger;
mod log;
pub mod log_ledger;
pub mod scan;

pub use filing::file;
pub use finder::Finder;
pub use index::{Index, IndexLedger};
pub use ledger::{Ledger, LedgerRefusal};
pub use log_ledger::LogLedger;
pub use scan::{Scan, ScanLedger};
