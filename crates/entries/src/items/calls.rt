// The calls on an item set, each by the list of its flags.
ghost use Rattle.std.specs.Prelude.{◌≡◌, ℕ, ◌<◌, true, false, ◌||◌, replicate, slice_set};
ghost use Rattle.entries.specs.Writes.{names};
ghost use Rattle.entries.specs.Lists.{writes};
ghost use Rattle.entries.specs.Items.{flags_of, has, with_items};

use super::ItemSet;
use crate::lists::WriteList;

impl ItemSet {
    // The set of no items.
    pub fn empty() -> ItemSet
        ensures { flags_of result ≡ replicate 256 false }
    {
        ItemSet {
            flags: [false; 256],
        }
    }

    // Whether the item is in the set.
    pub fn contains(&self, item: u8) -> bool
        ensures { result ≡ has (flags_of self.now) item }
    {
        let at = usize::from(item);
        self.flags[at]
    }

    // Puts the item into the set.
    pub fn insert(&mut self, item: u8)
        ensures { flags_of self.new ≡ slice_set (flags_of self.old) item true }
    {
        self.flags[usize::from(item)] = true;
    }

    // The items of the set and those that the list writes.
    pub fn union(&self, list: &WriteList) -> ItemSet
        ensures after { flags_of result ≡ with_items (flags_of self.now) (writes list.now) }
        ensures members { (i : ℕ) → i < 256 → has (flags_of result) i ≡ (has (flags_of self.now) i || names (writes list.now) i) }
    {
        // a loop: `fold` would carry the set through a closure that changes it, which is no plainer
        let mut items = *self;
        for w in list.as_slice() {
            items.insert(w.item);
        }
        items
    }
}
