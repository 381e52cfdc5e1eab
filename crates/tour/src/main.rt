// A tour of the parts: a page replica and an undo replica side by side, and two ledgers.
#![tactic(auto)]

mod filings;
mod sets;
mod sites;

use banks::{Alone, Beside};
use entries::WriteList;
use ledgers::{Finder, Index, LogLedger, Scan};
use replicas::{PageReplica, Record, UndoReplica};
use std::io;

// Two sites in a bank. Each program lays out its own: pages and records lie in the frame that lends them.
fn two_sites(rt: &HostRuntime) -> io::Result<()> {
    let mut page = [0u64; 4];
    let mut records = [Record::BLANK; 5];
    let mut other = [0u64; 6];
    let mut more = [Record::BLANK; 5];
    let mut bank = Beside {
        replica: PageReplica::new(&mut page, &mut records),
        rest: Alone {
            replica: UndoReplica::new(&mut other, &mut more),
        },
    };
    sites::tour(rt, &mut bank)
}

// Four filings before a ledger that finds conflicts in one way.
fn before<F: Finder>(rt: &HostRuntime, name: &str) -> io::Result<()> {
    let mut entries = [WriteList::empty(); 4];
    let mut ledger = LogLedger::<F>::new(&mut entries);
    filings::four(rt, name, &mut ledger)
}

fn main(rt: HostRuntime) -> io::Result<()> {
    two_sites(&rt)?;
    before::<Scan>(&rt, "a ledger that is searched")?;
    before::<Index>(&rt, "a ledger with an index")
}
