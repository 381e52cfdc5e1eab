// One slot: the state of its transaction, what it wrote and what it read.
ghost use Rattle.std.specs.Prelude.{◌≡◌, ◌≤◌};
ghost use Rattle.law.specs.Slots.{restarted};
ghost use Rattle.law.specs.Slots.SlotModel.{idle, filed};
ghost use Rattle.entries.specs.Lists.{writes};
ghost use Rattle.entries.specs.Items.{flags_of};
ghost use Rattle.slots.specs.Slots.{slot_model, admit_answer, after_admit, own_word, noted, put_answer, after_put, writes_of, touched_by, snapshot_of, opens, number_of};

use entries::{ItemSet, ListFull, WriteList};

// The state of a slot's transaction.
#[derive(Clone, Copy, PartialEq, Eq, Debug)]
pub enum State {
    Idle,
    // at a snapshot
    Open(u32),
    // with a number
    Filed(u32),
}

impl From<State> for u64 {
    ghost from_gives = { λ state r. r ≡ number_of state };

    // The number that stands for the state in text.
    fn from(state: State) -> u64 {
        match state {
            State::Idle => 0,
            State::Open(_) => 1,
            State::Filed(_) => 2,
        }
    }
}

// The state beside what an open transaction wrote and read, as the project asks for a slot; the two say nothing in another
// state, so a derived equality would tell apart slots that mean the same.
#[derive(Clone, Copy)]
pub struct Slot {
    state: State,
    writes: WriteList,
    reads: ItemSet,
}

impl Slot {
    // A slot with no transaction.
    pub(crate) fn idle() -> Slot
        ensures { slot_model result ≡ idle }
    {
        Slot {
            state: State::Idle,
            writes: WriteList::empty(),
            reads: ItemSet::empty(),
        }
    }

    // Takes a call by its letter, or refuses it with the state that the slot is in. The letter is the `char` of the text, and
    // state and letter choose among literal cases: the project asks for this form.
    pub(crate) fn admit(&mut self, letter: char, version: u32) -> Result<u32, State>
        ensures answer { result ≡ admit_answer letter version (slot_model self.old) }
        ensures after { slot_model self.new ≡ after_admit letter version (slot_model self.old) }
    {
        match (self.state, letter) {
            (State::Idle, 'B') => {
                self.state = State::Open(version);
                self.writes = WriteList::empty();
                self.reads = ItemSet::empty();
                Ok(version)
            }
            (State::Open(snapshot), 'R' | 'W' | 'F') => Ok(snapshot),
            (State::Open(snapshot), 'X') => {
                self.end();
                Ok(snapshot)
            }
            (State::Filed(number), 'C') => Ok(number),
            (state, _) => Err(state),
        }
    }

    // The word that an open transaction wrote to the item.
    pub(crate) fn get(&self, item: u8) -> Option<u64>
        ensures { result ≡ own_word item (slot_model self.now) }
    {
        match self.state {
            State::Open(_) => self.writes.get(item),
            _ => None,
        }
    }

    // The item joins those that an open transaction read.
    pub(crate) fn note(&mut self, item: u8)
        ensures { slot_model self.new ≡ noted item (slot_model self.old) }
    {
        self.reads.insert(item);
    }

    // An open transaction writes the word to the item; the length of its list.
    pub(crate) fn put(&mut self, item: u8, word: u64) -> Result<usize, ListFull>
        ensures answer { result ≡ put_answer item word (slot_model self.old) }
        ensures after { slot_model self.new ≡ after_put item word (slot_model self.old) }
    {
        let State::Open(_) = self.state else {
            return Err(ListFull);
        };
        self.writes.put(item, word)?;
        Ok(self.writes.len())
    }

    // The slot has no transaction any more.
    pub(crate) fn end(&mut self)
        ensures { slot_model self.new ≡ idle }
    {
        self.state = State::Idle;
    }

    // The slot's transaction is filed with the number.
    pub(crate) fn filed(&mut self, number: u32)
        ensures { slot_model self.new ≡ filed number }
    {
        self.state = State::Filed(number);
    }

    // What an open transaction wrote.
    pub(crate) fn list(&self) -> WriteList
        ensures { writes result ≡ writes_of (slot_model self.now) }
    {
        match self.state {
            State::Open(_) => self.writes,
            _ => WriteList::empty(),
        }
    }

    // The items that an open transaction read or wrote.
    pub(crate) fn touched(&self) -> ItemSet
        ensures { flags_of result ≡ touched_by (slot_model self.now) }
    {
        match self.state {
            State::Open(_) => self.reads.union(&self.writes),
            _ => ItemSet::empty(),
        }
    }

    // The snapshot of an open transaction.
    pub(crate) fn snapshot(&self) -> Option<u32>
        ensures { result ≡ snapshot_of (slot_model self.now) }
    {
        match self.state {
            State::Open(snapshot) => Some(snapshot),
            _ => None,
        }
    }

    // An open transaction is lost; 1 where it was open, else 0, so that a site can sum them.
    pub(crate) fn restart(&mut self) -> u32
        ensures answer { result ≡ opens (slot_model self.old) }
        ensures after { slot_model self.new ≡ restarted (slot_model self.old) }
        ensures one { result ≤ 1 }
    {
        let State::Open(_) = self.state else {
            return 0;
        };
        self.end();
        1
    }
}
