// A bank of one replica and those of another bank.
ghost use Rattle.std.specs.Prelude.{◌∷◌, take};
ghost use Rattle.banks.specs.Sites.{most_sites};
ghost use Rattle.std.proofs.Common.{rules};

use crate::bank::Bank;
use entries::WriteList;
use replicas::{Refusal, Replica};

// A bank offers no site from this one on.
const MOST_SITES: usize = 8;

// A replica at site 0, and after it those of the rest. Of a longer row the first eight are offered. Each call is handed on by
// its site: see `Bank`.
#[derive(Drop)]
pub struct Beside<R, B> {
    pub replica: R,
    pub rest: B,
}

impl<R: Replica, B: Bank> Bank for Beside<R, B> {
    ghost means = { λ b. take most_sites (R.Replica.means b.replica ∷ B.Bank.means b.rest) };

    ghost some = { Prim.search rules };

    ghost few = { Prim.search rules };

    fn sites(&self) -> usize {
        MOST_SITES.min(1 + self.rest.sites())
    }

    fn version(&self, site: usize) -> Option<u32> {
        match site {
            0 => Some(self.replica.version()),
            MOST_SITES.. => None,
            _ => self.rest.version(site - 1),
        }
    }

    fn base(&self, site: usize) -> Option<u32> {
        match site {
            0 => Some(self.replica.base()),
            MOST_SITES.. => None,
            _ => self.rest.base(site - 1),
        }
    }

    fn used(&self, site: usize) -> Option<usize> {
        match site {
            0 => Some(self.replica.used()),
            MOST_SITES.. => None,
            _ => self.rest.used(site - 1),
        }
    }

    fn items_at(&self, site: usize) -> Option<usize> {
        match site {
            0 => Some(self.replica.items()),
            MOST_SITES.. => None,
            _ => self.rest.items_at(site - 1),
        }
    }

    fn read(&self, site: usize, at: u32, item: usize) -> Result<u64, Refusal> {
        match site {
            0 => self.replica.read(at, item),
            MOST_SITES.. => Err(Refusal::NoSuchSite),
            _ => self.rest.read(site - 1, at, item),
        }
    }

    fn take(&mut self, site: usize, set: &WriteList) -> Result<u32, Refusal> {
        match site {
            0 => self.replica.take(set),
            MOST_SITES.. => Err(Refusal::NoSuchSite),
            _ => self.rest.take(site - 1, set),
        }
    }

    fn forget(&mut self, site: usize, to: u32) -> Result<(), Refusal> {
        match site {
            0 => self.replica.forget(to),
            MOST_SITES.. => Err(Refusal::NoSuchSite),
            _ => self.rest.forget(site - 1, to),
        }
    }

    fn clear_at(&mut self, site: usize, word: u64) {
        match site {
            0 => self.replica.clear(word),
            MOST_SITES.. => {}
            _ => self.rest.clear_at(site - 1, word),
        }
    }

    fn open_word_at(&mut self, site: usize, item: usize, word: u64) -> Result<(), Refusal> {
        match site {
            0 => self.replica.open_word(item, word),
            MOST_SITES.. => Err(Refusal::NoSuchSite),
            _ => self.rest.open_word_at(site - 1, item, word),
        }
    }
}
