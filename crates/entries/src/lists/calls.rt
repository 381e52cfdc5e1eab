// The calls on a write list, each by the list of its writes.
ghost use Rattle.std.specs.Prelude.{◌≡◌, ◌==◌, ℕ, ◌+◌, ◌<◌, ◌≤◌, true, [], length, take, is_ok, if◌then◌else◌, Some, nat_eq};
ghost use Rattle.std.specs.List.{insert, find};
ghost use Rattle.std.specs.Option.{option_map};
ghost use Rattle.entries.specs.Writes.{word_of, place, Searched};
ghost use Rattle.entries.specs.Lists.{writes, put_answer, after_put};

use super::{ListFull, MOST, WriteList};
use crate::writes::Write;

// Puts a write at a place of the first `len`, and moves those from there on up by one.
fn insert_at(slots: &mut [Write], len: usize, at: usize, write: Write)
    requires place { at ≤ len }
    requires room { len < length slots.old }
    ensures { take (len + 1) slots.new ≡ insert (take len slots.old) at write }
{
    slots[len] = write;
    slots[at..=len].rotate_right(1);
}

impl WriteList {
    // The list with no writes.
    pub fn empty() -> WriteList
        ensures { writes result ≡ [] }
    {
        WriteList {
            len: 0,
            slots: [Write { item: 0, word: 0 }; MOST],
        }
    }

    // How many writes there are.
    pub fn len(&self) -> usize
        ensures { result ≡ length (writes self.now) }
    {
        self.as_slice().len()
    }

    // The writes, in rising order of their items.
    pub fn as_slice(&self) -> &[Write]
        ensures { result.now ≡ writes self.now }
    {
        &self.slots[..self.len]
    }

    // The word that the list has for the item.
    pub fn get(&self, item: u8) -> Option<u64>
        ensures { result ≡ word_of (writes self.now) item }
    {
        self.write_of(item).map(|w| w.word)
    }

    // The write of the item. A pass over so few writes takes less time than a search by halves.
    fn write_of(&self, item: u8) -> Option<&Write>
        ensures { option_map (λ w. w.now) result ≡ find (λ w. w.item == item) (writes self.now) }
    {
        self.as_slice().iter().find(|w| w.item == item)
    }

    // How many writes are of items below this one.
    fn place(&self, item: u8) -> usize
        ensures { result ≡ place (writes self.now) item }
    {
        self.as_slice().iter().take_while(|w| w.item < item).count()
    }

    // Where the item's write stands, or where it would stand, as a search of the library answers it.
    fn search(&self, item: u8) -> Result<usize, usize>
        ensures { Searched (writes self.now) item result }
    {
        let at = self.place(item);
        if at < self.len && self.slots[at].item == item {
            Ok(at)
        } else {
            Err(at)
        }
    }

    // Gives the item the word, in place of an earlier one; a ninth item is refused, and the list stays.
    pub fn put(&mut self, item: u8, word: u64) -> Result<(), ListFull>
        ensures answer { result ≡ put_answer (writes self.old) item }
        ensures after { writes self.new ≡ after_put (writes self.old) item word }
        ensures found { is_ok result ≡ true → (i : ℕ) → word_of (writes self.new) i ≡ (if nat_eq i item then Some word else word_of (writes self.old) i) }
    {
        let write = Write { item, word };
        match self.search(item) {
            Ok(at) => self.slots[at] = write,
            Err(at) => {
                let len = self.len;
                if len >= MOST {
                    return Err(ListFull);
                }
                insert_at(&mut self.slots, len, at, write);
                self.len = len + 1;
            }
        }
        Ok(())
    }
}
