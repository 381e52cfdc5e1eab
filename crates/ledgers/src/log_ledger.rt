// Ledgers over a log, with a finder of their own for conflicts.
ghost use Rattle.ledgers.specs.Logs.{log_model};

use crate::finder::Finder;
use crate::log::Log;

pub mod calls;

// The log, and what finds conflicts in it.
#[derive(Drop)]
pub struct LogLedger<'a, F: Finder> {
    log: Log<'a>,
    finder: F,
    ghost fits: { F.fits (log_model log) finder } by { F.single (log_model log) finder },
}
