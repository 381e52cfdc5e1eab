// The slots of all sites. A site or a slot that there is not counts as an idle slot, and stays so.
ghost use Rattle.std.specs.Prelude.{◌≡◌, ◌<◌, T, [], map, replicate, is_some, slice_index_or, slice_set};
ghost use Rattle.std.specs.Fn.{FnOnceReturnsAtMut};
ghost use Rattle.entries.specs.Lists.{writes};
ghost use Rattle.entries.specs.Items.{flags_of};
ghost use Rattle.law.specs.Slots.{horizon, restarted, open_count};
ghost use Rattle.law.specs.Slots.SlotModel.{idle, filed};
ghost use Rattle.slots.specs.Slots.{admit_answer, after_admit, own_word, noted, put_answer, after_put, writes_of, touched_by};
ghost use Rattle.slots.specs.Tables.{has_slot, slot_in, changed_slot, Lends, Changes};

use crate::places::Place;
use crate::sites::Site;
use crate::slots::{Slot, State};
use entries::{ItemSet, ListFull, WriteList};
use std::marker::Model;

// The slots of eight sites, always so many: no heap.
#[derive(Drop)]
pub struct SlotTable {
    sites: [Site; 8],
}

// A table means the rows of its sites.
impl Model for SlotTable {
    ghost use Rattle.std.specs.Prelude.{List, map};
    ghost use Rattle.law.specs.Slots.{SlotModel};

    ghost Value = { List (List SlotModel) };

    ghost use Rattle.slots.specs.Tables.{row_model};

    ghost view = { λ t. map row_model t.sites };
}

impl SlotTable {
    // A table with no transaction.
    pub fn idle() -> SlotTable
        ensures { result ≡ replicate 8 (replicate 8 idle) }
    {
        SlotTable {
            sites: [Site::idle(); 8],
        }
    }

    // The slot at a place, if there is one.
    fn slot(&self, at: Place) -> Option<&Slot>
        ensures is { Lends result (slot_in self.now at.site at.slot) }
        ensures there { is_some result ≡ has_slot self.now at.site at.slot }
        ensures within { T (is_some result) → (at.site < 8) × (at.slot < 8) }
    {
        self.sites.get(at.site)?.slots.get(at.slot)
    }

    // Makes a call on the slot at a place, if there is one. An index lends it, since after `get_mut` of an array a proof knows nothing of the array.
    fn change<R, F: FnOnce(&mut Slot) -> R>(&mut self, at: Place, call: F) -> Option<R>
        requires { F.IsAlwaysCallable call }
        ensures { Changes (FnOnceReturnsAtMut F.FnOnce call) self.old at.site at.slot result self.new }
    {
        self.slot(at)?;
        let row = &mut self.sites[at.site];
        Some(call(&mut row.slots[at.slot]))
    }

    // The slot takes a call by its letter, the `char` of the text, and answers the number that it goes by, or refuses with its
    // state.
    pub fn admit(&mut self, at: Place, letter: char, version: u32) -> Result<u32, State>
        ensures answer { result ≡ admit_answer letter version (slot_in self.old at.site at.slot) }
        ensures after { self.new ≡ changed_slot self.old at.site at.slot (after_admit letter version) }
    {
        self.change(at, |slot| slot.admit(letter, version))
            .unwrap_or_else(|| Slot::idle().admit(letter, version))
    }

    // The word that an open transaction wrote to the item.
    pub fn get(&self, at: Place, item: u8) -> Option<u64>
        ensures { result ≡ own_word item (slot_in self.now at.site at.slot) }
    {
        self.slot(at)?.get(item)
    }

    // The item joins those that an open transaction read.
    pub fn note(&mut self, at: Place, item: u8)
        ensures { self.new ≡ changed_slot self.old at.site at.slot (noted item) }
    {
        self.change(at, |slot| slot.note(item));
    }

    // An open transaction writes the word to the item; the length of its list.
    pub fn put(&mut self, at: Place, item: u8, word: u64) -> Result<usize, ListFull>
        ensures answer { result ≡ put_answer item word (slot_in self.old at.site at.slot) }
        ensures after { self.new ≡ changed_slot self.old at.site at.slot (after_put item word) }
    {
        self.change(at, |slot| slot.put(item, word))
            .unwrap_or(Err(ListFull))
    }

    // The slot has no transaction any more.
    pub fn end(&mut self, at: Place)
        ensures { self.new ≡ changed_slot self.old at.site at.slot (λ _. idle) }
    {
        self.change(at, |slot| slot.end());
    }

    // The slot's transaction is filed with the number.
    pub fn filed(&mut self, at: Place, number: u32)
        ensures { self.new ≡ changed_slot self.old at.site at.slot (λ _. filed number) }
    {
        self.change(at, |slot| slot.filed(number));
    }

    // What an open transaction wrote.
    pub fn list(&self, at: Place) -> WriteList
        ensures { writes result ≡ writes_of (slot_in self.now at.site at.slot) }
    {
        match self.slot(at) {
            Some(slot) => slot.list(),
            None => WriteList::empty(),
        }
    }

    // The items that an open transaction read or wrote.
    pub fn touched(&self, at: Place) -> ItemSet
        ensures { flags_of result ≡ touched_by (slot_in self.now at.site at.slot) }
    {
        match self.slot(at) {
            Some(slot) => slot.touched(),
            None => ItemSet::empty(),
        }
    }

    // The smallest open snapshot of the site, or the version where none of its slots is open.
    pub fn horizon(&self, site: usize, version: u32) -> u32
        ensures { result ≡ horizon (slice_index_or self.now site []) version }
    {
        match self.sites.get(site) {
            Some(row) => row.horizon(version),
            None => version,
        }
    }

    // Every open transaction of the site is lost; how many there were.
    pub fn restart(&mut self, site: usize) -> u32
        ensures answer { result ≡ open_count (slice_index_or self.old site []) }
        ensures after { self.new ≡ slice_set self.old site (map restarted (slice_index_or self.old site [])) }
    {
        if self.sites.get(site).is_none() {
            return 0;
        }
        self.sites[site].restart()
    }
}
