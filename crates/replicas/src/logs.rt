// The log of a replica: one record for each write that it keeps, in a ring over lent memory.
ghost use Rattle.std.specs.Prelude.{◌≡◌, ◌-◌, true};
ghost use Rattle.rings.specs.Held.{held};
ghost use Rattle.replicas.specs.Records.{cut};
ghost use Rattle.replicas.specs.Kept.{Kept, all_rising};

use crate::records::Record;
use rings::ring::Ring;

pub mod calls;
pub mod scans;

// The records of the versions above `base` and up to `version`, oldest first.
#[derive(Drop)]
pub struct Log<'a> {
    pub ring: Ring<'a, Record>,
    pub base: u32,
    pub version: u32,
    ghost kept: { Kept base version (held ring) },
    ghost rising: { all_rising (cut base (version - base) (held ring)) ≡ true },
}
