// A replica over lent memory: a page of words and a log of writes.
use crate::logs::Log;
use std::marker::PhantomData;

pub mod calls;

// The contents at one version, as `K` says at which, and a record for each write that tells the others.
#[derive(Drop)]
pub struct LogReplica<'a, K> {
    pub(crate) page: &'a mut [u64],
    pub(crate) log: Log<'a>,
    keeping: PhantomData<K>,
}
