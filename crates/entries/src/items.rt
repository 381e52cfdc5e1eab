// Item sets: the items that a transaction read or wrote.
ghost use Rattle.std.specs.Prelude.{◌≡◌, length};

pub mod calls;

// A flag for each of the 256 items. It is seen by this one field, which is what it means.
#[derive(Clone, Copy, PartialEq, Eq, Debug)]
pub struct ItemSet {
    flags: [bool; 256],
    ghost whole: { length flags ≡ 256 },
}
