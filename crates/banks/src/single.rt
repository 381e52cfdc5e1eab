// A bank of one replica.
ghost use Rattle.std.specs.Prelude.{[], ◌∷◌};
ghost use Rattle.std.proofs.Common.{rules};

use crate::bank::Bank;
use entries::WriteList;
use replicas::{Refusal, Replica};

// The only replica of its bank, at site 0. Each call tests the site and is handed on, so that the test that the rules name
// stands in each; one that runs a closure would need one for `&R` and one for `&mut R`.
#[derive(Drop)]
pub struct Alone<R> {
    pub replica: R,
}

impl<R: Replica> Bank for Alone<R> {
    ghost means = { λ b. R.Replica.means b.replica ∷ [] };

    ghost some = { Prim.search rules };

    ghost few = { Prim.search rules };

    fn sites(&self) -> usize {
        1
    }

    fn version(&self, site: usize) -> Option<u32> {
        (site == 0).then(|| self.replica.version())
    }

    fn base(&self, site: usize) -> Option<u32> {
        (site == 0).then(|| self.replica.base())
    }

    fn used(&self, site: usize) -> Option<usize> {
        (site == 0).then(|| self.replica.used())
    }

    fn items_at(&self, site: usize) -> Option<usize> {
        (site == 0).then(|| self.replica.items())
    }

    fn read(&self, site: usize, at: u32, item: usize) -> Result<u64, Refusal> {
        if site == 0 {
            self.replica.read(at, item)
        } else {
            Err(Refusal::NoSuchSite)
        }
    }

    fn take(&mut self, site: usize, set: &WriteList) -> Result<u32, Refusal> {
        if site == 0 {
            self.replica.take(set)
        } else {
            Err(Refusal::NoSuchSite)
        }
    }

    fn forget(&mut self, site: usize, to: u32) -> Result<(), Refusal> {
        if site == 0 {
            self.replica.forget(to)
        } else {
            Err(Refusal::NoSuchSite)
        }
    }

    fn clear_at(&mut self, site: usize, word: u64) {
        if site == 0 {
            self.replica.clear(word);
        }
    }

    fn open_word_at(&mut self, site: usize, item: usize, word: u64) -> Result<(), Refusal> {
        if site == 0 {
            self.replica.open_word(item, word)
        } else {
            Err(Refusal::NoSuchSite)
        }
    }
}
