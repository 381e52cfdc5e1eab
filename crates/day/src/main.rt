// A day in three shops that share a book of counts, and then a book of job cards.
#![tactic(auto)]

mod cards;
mod counts;
mod frame;
mod report;

use banks::{Alone, Bank, Beside};
use book::Parts;
use cards::Cards;
use counts::Counts;
use entries::WriteList;
use frame::day;
use ledgers::{IndexLedger, Ledger, ScanLedger};
use replicas::{PageReplica, Record, UndoReplica};
use std::io;

// Counts over one ledger; then the same bank holds cards over another.
fn both<S: Ledger + Drop, I: Ledger + Drop, B: Bank + Drop>(
    rt: &HostRuntime,
    scan: S,
    index: I,
    bank: B,
) -> io::Result<()> {
    let (parts, told) = day::<Counts, S, B>(rt, Parts { ledger: scan, bank });
    let Parts { ledger: _, bank } = parts;
    told?;
    let (parts, told) = day::<Cards, I, B>(
        rt,
        Parts {
            ledger: index,
            bank,
        },
    );
    let Parts { ledger: _, bank: _ } = parts;
    told
}

// Two ledgers are kept here and lent.
fn ledgers<B: Bank + Drop>(rt: &HostRuntime, bank: B) -> io::Result<()> {
    let mut sets = [WriteList::empty(); 4];
    let mut scan = ScanLedger::new(&mut sets);
    let mut other_sets = [WriteList::empty(); 4];
    let mut index = IndexLedger::new(&mut other_sets);
    both(rt, &mut scan, &mut index, bank)
}

// Three sites are kept here and lent. Each program lays out its own: pages and records lie in the frame that lends them.
fn main(rt: HostRuntime) -> io::Result<()> {
    let mut page = [0u64; 4];
    let mut records = [Record::BLANK; 5];
    let mut first = PageReplica::new(&mut page, &mut records);
    let mut other_page = [0u64; 6];
    let mut other_records = [Record::BLANK; 5];
    let mut second = UndoReplica::new(&mut other_page, &mut other_records);
    let mut last_page = [0u64; 4];
    let mut last_records = [Record::BLANK; 5];
    let mut third = PageReplica::new(&mut last_page, &mut last_records);
    let bank = Beside {
        replica: &mut first,
        rest: Beside {
            replica: &mut second,
            rest: Alone {
                replica: &mut third,
            },
        },
    };
    ledgers(&rt, bank)
}
