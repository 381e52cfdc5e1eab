// Write lists: the writes of one transaction.
ghost use Rattle.std.specs.Prelude.{◌≡◌, ◌≤◌, true, length, take};
ghost use Rattle.entries.specs.Rising.{rising};

use crate::writes::Write;

pub mod calls;
pub mod full;

// How many writes a list has room for.
pub const MOST: usize = 8;

// At most eight writes, each of another item, in rising order of the items.
// An array with its length beside: no heap, and a list lies in lent slices, so it is `Copy`. What lies past the length is no
// part of what it means, so it has no derived equality, nor a model, which for a `Copy` type must give the fields back.
#[derive(Clone, Copy)]
pub struct WriteList {
    len: usize,
    slots: [Write; MOST],
    ghost whole: { length slots ≡ 8 },
    ghost few: { len ≤ 8 },
    ghost sorted: { rising (take len slots) ≡ true },
}

// The refusal of a ninth item.
#[derive(Clone, Copy, PartialEq, Eq, Debug)]
pub struct ListFull;
