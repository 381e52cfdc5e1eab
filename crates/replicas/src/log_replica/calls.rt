// The calls on a replica over a page and a log.
ghost use Rattle.std.specs.Prelude.{◌≡◌, length};
ghost use Rattle.replicas.specs.Model.{opened};
ghost use Rattle.replicas.specs.Logs.{cells_of};

use super::LogReplica;
use crate::keeping::Keeping;
use crate::logs::Log;
use crate::records::Record;
use crate::replica::{Refusal, Replica};
use entries::WriteList;
use std::marker::PhantomData;

impl<'a, K: Keeping> LogReplica<'a, K> {
    // A replica at version 0 with the page as it is.
    pub fn new(page: &'a mut [u64], records: &'a mut [Record]) -> LogReplica<'a, K>
        ensures { K.model result ≡ opened page.old (length records.old) }
    {
        LogReplica {
            page,
            log: Log::new(records),
            keeping: PhantomData,
        }
    }

    // The page and the records again: the page holds the contents at the version that `K` says.
    pub fn into_buffers(self) -> (&'a mut [u64], &'a mut [Record])
        ensures page { result.0.now ≡ K.shown (K.model self.entry) }
        ensures records { length result.1.now ≡ (K.model self.entry).capacity }
        ensures cells { result.1.now ≡ cells_of self.entry.log }
    {
        let LogReplica { page, log, .. } = self;
        (page, log.into_cells())
    }
}

impl<'a, K: Keeping> Replica for LogReplica<'a, K> {
    ghost means = { K.Keeping.model };

    fn clear(&mut self, word: u64) {
        self.page.fill(word);
        self.log.clear();
    }

    fn open_word(&mut self, item: usize, word: u64) -> Result<(), Refusal> {
        if self.log.version > 0 {
            return Err(Refusal::InUse);
        }
        if item >= self.page.len() {
            return Err(Refusal::NoSuchItem);
        }
        self.page[item] = word;
        Ok(())
    }

    fn read(&self, at: u32, item: usize) -> Result<u64, Refusal> {
        if !self.log.keeps(at) {
            return Err(Refusal::NotKept);
        }
        if item >= self.page.len() {
            return Err(Refusal::NoSuchItem);
        }
        Ok(K::word(self, at, item))
    }

    fn take(&mut self, set: &WriteList) -> Result<u32, Refusal> {
        K::take(self, set)
    }

    fn forget(&mut self, to: u32) -> Result<(), Refusal> {
        if !self.log.keeps(to) {
            return Err(Refusal::NotKept);
        }
        K::forget(self, to);
        Ok(())
    }

    fn version(&self) -> u32 {
        self.log.version
    }

    fn base(&self) -> u32 {
        self.log.base
    }

    fn used(&self) -> usize {
        self.log.ring.len()
    }

    fn capacity(&self) -> usize {
        self.log.ring.capacity()
    }

    fn items(&self) -> usize {
        self.page.len()
    }
}
