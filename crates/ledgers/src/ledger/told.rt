// What a refusal says to a person.
ghost use Rattle.std.specs.Prelude.{Some};
ghost use Rattle.ledgers.specs.Told.{refusal_text};

use super::LedgerRefusal;
use std::error::Error;
use std::fmt;

impl fmt::Display for LedgerRefusal {
    ghost output = { λ r. Some (refusal_text r) };

    fn fmt<W: fmt::Write>(&self, f: &mut fmt::Formatter<W>) -> fmt::Result {
        match self {
            LedgerRefusal::BelowFloor(floor) => {
                write!(f, "begin again: the ledger was trimmed to version {floor}")
            }
            LedgerRefusal::Conflict(version) => {
                write!(f, "what it read was written by version {version}")
            }
            LedgerRefusal::NoWrites => f.write_str("the number of its writes is 0"),
            LedgerRefusal::LastVersion => f.write_str("no version comes after 999999"),
            LedgerRefusal::Full => f.write_str(
                "trim the ledger first: its room for more sets is 0",
            ),
        }
    }
}

impl Error for LedgerRefusal {}
