// The calls on a log, each by its sets, its base and its version.
ghost use Rattle.std.specs.Prelude.{◌≡◌, ◌-◌, true, [], ◌∷◌, ◌++◌, length, take, drop, OnOk, OnErr};
ghost use Rattle.rings.specs.Held.{size};
ghost use Rattle.entries.specs.Lists.{writes};
ghost use Rattle.replicas.specs.Overlay.{joined, laid, replaced, newest_word_of, oldest_word_of};
ghost use Rattle.replicas.specs.Records.{upto};
ghost use Rattle.replicas.specs.Logs.{records, sets_of, cells_of, has_version, set_answer, Holds};

use super::{Log, scans};
use crate::records::Record;
use crate::replica::Refusal;
use entries::WriteList;
use rings::ring::Ring;

const LAST_VERSION: u32 = 999999;

impl<'a> Log<'a> {
    // A log with no records, at version 0.
    pub(crate) fn new(cells: &'a mut [Record]) -> Log<'a>
        ensures { Holds result 0 [] (length cells.old) }
    {
        Log {
            ring: Ring::new(cells),
            base: 0,
            version: 0,
        }
    }

    // The cells again.
    pub(crate) fn into_cells(self) -> &'a mut [Record]
        ensures { result.now ≡ cells_of self.entry }
    {
        let Log { ring, .. } = self;
        ring.into_cells()
    }

    // Lets every record go.
    pub(crate) fn clear(&mut self)
        ensures { Holds self.new 0 [] (size self.old.ring) }
    {
        self.ring.clear();
        self.base = 0;
        self.version = 0;
    }

    // Whether a version is kept.
    pub(crate) fn keeps(&self, at: u32) -> bool
        ensures { result ≡ has_version self.now at }
    {
        self.base <= at && at <= self.version
    }

    // Whether a set is taken where there are so many items, and the version that it becomes.
    fn admits(&self, set: &WriteList, items: usize) -> Result<u32, Refusal>
        ensures { result ≡ set_answer self.now items (writes set.now) }
    {
        let writes = set.as_slice();
        let capacity = self.ring.capacity();
        let used = self.ring.len();
        if writes.is_empty() {
            return Err(Refusal::NoWrites);
        }
        if scans::names_past(writes, items) {
            return Err(Refusal::NoSuchItem);
        }
        if capacity - used < writes.len() {
            return Err(Refusal::NoRoom);
        }
        if self.version >= LAST_VERSION {
            return Err(Refusal::LastVersion);
        }
        Ok(self.version + 1)
    }

    // How many records are of versions up to `at`.
    fn end_of(&self, at: u32) -> usize
        ensures { result ≡ upto at (records self.now) }
    {
        scans::end_of(&self.ring, at)
    }

    // The word of the newest write of the item up to a version, or `word`.
    pub(crate) fn newest_word(&self, at: u32, item: usize, word: u64) -> u64
        ensures { result ≡ newest_word_of (joined (take (at - self.now.base) (sets_of self.now))) item word }
    {
        let end = self.end_of(at);
        scans::newest_word(&self.ring, end, item, word)
    }

    // The word of the oldest write of the item after a version, or `word`.
    pub(crate) fn oldest_word(&self, at: u32, item: usize, word: u64) -> u64
        ensures { result ≡ oldest_word_of (joined (drop (at - self.now.base) (sets_of self.now))) item word }
    {
        let end = self.end_of(at);
        scans::oldest_word(&self.ring, end, item, word)
    }

    // Lays the sets up to a version over the page, and answers how many records they have.
    pub(crate) fn lay(&self, page: &mut [u64], to: u32) -> usize
        ensures page { page.new ≡ laid page.old (joined (take (to - self.now.base) (sets_of self.now))) }
        ensures end { result ≡ upto to (records self.now) }
    {
        let end = self.end_of(to);
        scans::lay_over(page, &self.ring, end);
        end
    }

    // Takes the set as that of the next version, which it answers, where there are so many items.
    pub(crate) fn append(&mut self, set: &WriteList, items: usize) -> Result<u32, Refusal>
        ensures answer { result ≡ set_answer self.old items (writes set.now) }
        ensures taken { OnOk result (Holds self.new self.old.base (sets_of self.old ++ (writes set.now ∷ [])) (size self.old.ring)) }
        ensures refused { OnErr result (self.new ≡ self.old) }
    {
        let version = self.admits(set, items)?;
        scans::append(&mut self.ring, version, set.as_slice());
        self.version = version;
        Ok(version)
    }

    // Takes the set as that of the next version, which it answers: on the page, and in the log the words that it replaced there.
    pub(crate) fn exchange(&mut self, page: &mut [u64], set: &WriteList) -> Result<u32, Refusal>
        ensures answer { result ≡ set_answer self.old (length page.old) (writes set.now) }
        ensures taken { OnOk result (Holds self.new self.old.base (sets_of self.old ++ (replaced page.old (writes set.now) ∷ [])) (size self.old.ring)) }
        ensures page { OnOk result (page.new ≡ laid page.old (writes set.now)) }
        ensures refused { OnErr result (self.new ≡ self.old) }
        ensures same_page { OnErr result (page.new ≡ page.old) }
    {
        let version = self.admits(set, page.len())?;
        scans::exchange(page, &mut self.ring, version, set.as_slice());
        self.version = version;
        Ok(version)
    }

    // Lets the sets up to a version that is kept go, which becomes the base.
    pub(crate) fn forget(&mut self, to: u32)
        requires { has_version self.old to ≡ true }
        ensures { Holds self.new to (drop (to - self.old.base) (sets_of self.old)) (size self.old.ring) }
    {
        let end = self.end_of(to);
        self.rebase(to, end);
    }

    // The same, where it is known how many records these sets have.
    pub(crate) fn rebase(&mut self, to: u32, end: usize)
        requires kept { has_version self.old to ≡ true }
        requires end { end ≡ upto to (records self.old) }
        ensures { Holds self.new to (drop (to - self.old.base) (sets_of self.old)) (size self.old.ring) }
    {
        self.ring.drop_first(end);
        self.base = to;
    }
}
