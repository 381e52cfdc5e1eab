// What a bank offers: its replicas by site, from 0 on.
ghost use Rattle.std.specs.Prelude.{◌≡◌, ◌<◌, ◌≤◌, List, map, length, Some, None, Err};
ghost use Rattle.entries.specs.Lists.{writes};
ghost use Rattle.replicas.specs.declared.replica.Refusal.TheVariants.{NoSuchSite};
ghost use Rattle.replicas.specs.Model.{ReplicaModel, version_of, used_of, items_of, cleared, open_answer, after_open, read_answer, take_answer, after_take, forget_answer, after_forget};
ghost use Rattle.banks.specs.Sites.{most_sites, at_site, changed_at, least_items, is_in_use, open_all_answer, after_open_all};

use entries::WriteList;
use replicas::Refusal;

// A bank counts no more items than these.
const MOST_ITEMS: usize = 256;

// A method for each call on a site: one that runs a closure at a site would do, if a `&dyn Replica` could be made of a
// replica whose type is a parameter.
pub trait Bank {
    // the replicas that the bank offers, by site
    ghost means: { Self → List ReplicaModel };

    // How many replicas it offers.
    fn sites(&self) -> usize
        ensures { result ≡ length (means self.now) };

    fn version(&self, site: usize) -> Option<u32>
        ensures { result ≡ at_site (means self.now) site (λ m. Some (version_of m)) None };

    fn base(&self, site: usize) -> Option<u32>
        ensures { result ≡ at_site (means self.now) site (λ m. Some m.base) None };

    fn used(&self, site: usize) -> Option<usize>
        ensures { result ≡ at_site (means self.now) site (λ m. Some (used_of m)) None };

    fn items_at(&self, site: usize) -> Option<usize>
        ensures { result ≡ at_site (means self.now) site (λ m. Some (items_of m)) None };

    fn read(&self, site: usize, at: u32, item: usize) -> Result<u64, Refusal>
        ensures { result ≡ at_site (means self.now) site (λ m. read_answer m at item) (Err NoSuchSite) };

    fn take(&mut self, site: usize, set: &WriteList) -> Result<u32, Refusal>
        ensures answer { result ≡ at_site (means self.old) site (λ m. take_answer m (writes set.now)) (Err NoSuchSite) }
        ensures after { means self.new ≡ changed_at (means self.old) site (after_take (writes set.now)) };

    fn forget(&mut self, site: usize, to: u32) -> Result<(), Refusal>
        ensures answer { result ≡ at_site (means self.old) site (λ m. forget_answer m to) (Err NoSuchSite) }
        ensures after { means self.new ≡ changed_at (means self.old) site (after_forget to) };

    fn clear_at(&mut self, site: usize, word: u64)
        ensures { means self.new ≡ changed_at (means self.old) site (cleared word) };

    fn open_word_at(&mut self, site: usize, item: usize, word: u64) -> Result<(), Refusal>
        ensures answer { result ≡ at_site (means self.old) site (λ m. open_answer m item) (Err NoSuchSite) }
        ensures after { means self.new ≡ changed_at (means self.old) site (after_open item word) };

    // How many items all have: the smaller of 256 and the least that a replica has.
    fn items(&self) -> usize
        ensures least { result ≡ least_items (means self.now) }
        ensures most { result ≤ 256 }
    {
        // a loop: of a chain over the sites the proof did not close
        let mut least = MOST_ITEMS;
        for site in 0..self.sites() {
            if let Some(count) = self.items_at(site) {
                least = least.min(count);
            }
        }
        least
    }

    // Whether some replica is past version 0.
    fn in_use(&self) -> bool
        ensures { result ≡ is_in_use (means self.now) }
    {
        // a loop: of a chain over the sites the proof did not close
        for site in 0..self.sites() {
            if self.version(site).is_some_and(|version| version > 0) {
                return true;
            }
        }
        false
    }

    // Clears every replica.
    fn clear(&mut self, word: u64)
        ensures { means self.new ≡ map (cleared word) (means self.old) }
    {
        for site in 0..self.sites() {
            self.clear_at(site, word);
        }
    }

    // Gives the item its word at every replica, or at none.
    fn open_word(&mut self, item: usize, word: u64) -> Result<(), Refusal>
        ensures answer { result ≡ open_all_answer (means self.old) item }
        ensures after { means self.new ≡ after_open_all item word (means self.old) }
    {
        if self.in_use() {
            return Err(Refusal::InUse);
        }
        if item >= self.items() {
            return Err(Refusal::NoSuchItem);
        }
        for site in 0..self.sites() {
            let _ = self.open_word_at(site, item, word);
        }
        Ok(())
    }

    // a bank offers a replica
    ghost some: { (b : Self) → 0 < length (means b) };

    // and at most eight
    ghost few: { (b : Self) → length (means b) ≤ most_sites };
}
