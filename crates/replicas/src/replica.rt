// What a replica offers: the contents at a base version and the write sets of the versions above it.
ghost use Rattle.std.specs.Prelude.{◌≡◌};
ghost use Rattle.entries.specs.Lists.{writes};
ghost use Rattle.replicas.specs.Model.{ReplicaModel, version_of, used_of, items_of, cleared, open_answer, after_open, read_answer, take_answer, after_take, forget_answer, after_forget};

use entries::WriteList;

mod told;

// Why a call on a replica or on a bank was refused.
#[derive(Clone, Copy, PartialEq, Eq, Debug)]
pub enum Refusal {
    // an opening word after the first version
    InUse,
    // a version below the base or above the replica's version
    NotKept,
    // an item that the replica does not have
    NoSuchItem,
    // a set without writes
    NoWrites,
    // more writes than there are records left for
    NoRoom,
    // no version comes after 999,999
    LastVersion,
    // a site that the bank does not have
    NoSuchSite,
}

pub trait Replica {
    // the base, the contents there, the sets of the versions above it, and the capacity
    ghost means: { Self → ReplicaModel };

    // Version 0, with the word everywhere.
    fn clear(&mut self, word: u64)
        ensures { means self.new ≡ cleared word (means self.old) };

    // Gives the item its word at version 0.
    fn open_word(&mut self, item: usize, word: u64) -> Result<(), Refusal>
        ensures answer { result ≡ open_answer (means self.old) item }
        ensures after { means self.new ≡ after_open item word (means self.old) };

    // The word of the item at a version that is kept.
    fn read(&self, at: u32, item: usize) -> Result<u64, Refusal>
        ensures { result ≡ read_answer (means self.now) at item };

    // Takes the set as that of the next version, which it answers.
    fn take(&mut self, set: &WriteList) -> Result<u32, Refusal>
        ensures answer { result ≡ take_answer (means self.old) (writes set.now) }
        ensures after { means self.new ≡ after_take (writes set.now) (means self.old) };

    // Makes a version that is kept the base.
    fn forget(&mut self, to: u32) -> Result<(), Refusal>
        ensures answer { result ≡ forget_answer (means self.old) to }
        ensures after { means self.new ≡ after_forget to (means self.old) };

    // The newest version.
    fn version(&self) -> u32
        ensures { result ≡ version_of (means self.now) };

    // The oldest version that is kept.
    fn base(&self) -> u32
        ensures { result ≡ (means self.now).base };

    // How many writes are kept, over all sets.
    fn used(&self) -> usize
        ensures { result ≡ used_of (means self.now) };

    // How many writes can be kept.
    fn capacity(&self) -> usize
        ensures { result ≡ (means self.now).capacity };

    // How many items there are.
    fn items(&self) -> usize
        ensures { result ≡ items_of (means self.now) };
}

// A replica that is lent: a caller that keeps it lends it, so each call is handed on.
impl<'a, R: Replica> Replica for &'a mut R {
    ghost means = { λ r. R.Replica.means r.now };

    fn clear(&mut self, word: u64) {
        (**self).clear(word);
    }

    fn open_word(&mut self, item: usize, word: u64) -> Result<(), Refusal> {
        (**self).open_word(item, word)
    }

    fn read(&self, at: u32, item: usize) -> Result<u64, Refusal> {
        (**self).read(at, item)
    }

    fn take(&mut self, set: &WriteList) -> Result<u32, Refusal> {
        (**self).take(set)
    }

    fn forget(&mut self, to: u32) -> Result<(), Refusal> {
        (**self).forget(to)
    }

    fn version(&self) -> u32 {
        (**self).version()
    }

    fn base(&self) -> u32 {
        (**self).base()
    }

    fn used(&self) -> usize {
        (**self).used()
    }

    fn capacity(&self) -> usize {
        (**self).capacity()
    }

    fn items(&self) -> usize {
        (**self).items()
    }
}
