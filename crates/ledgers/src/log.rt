// The log of a ledger: the sets of the versions above its floor, in a ring over lent memory.
ghost use Rattle.std.specs.Prelude.{◌+◌, ◌≤◌, length};
ghost use Rattle.rings.specs.Held.{held};
ghost use Rattle.ledgers.specs.Model.{last_version};

use entries::WriteList;
use rings::ring::Ring;

pub mod calls;

// The sets lie oldest first, so that the first is that of the version after the floor; the head is not past the last version.
#[derive(Drop)]
pub struct Log<'a> {
    pub ring: Ring<'a, WriteList>,
    pub floor: u32,
    pub ghost kept: { floor + length (held ring) ≤ last_version },
}
