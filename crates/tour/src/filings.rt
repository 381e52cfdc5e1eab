// Four transactions before a ledger.
use crate::sets::set_of;
use entries::ItemSet;
use ledgers::{Ledger, LedgerRefusal, file};
use std::io;

// Says what came of a filing.
fn tell(rt: &HostRuntime, what: &str, answer: Result<u32, LedgerRefusal>) -> io::Result<()> {
    match answer {
        Ok(version) => println!(rt; "  {what}: numbered as version {version}"),
        Err(refusal) => println!(rt; "  {what}: refused, {refusal}"),
    }
}

// Files what a transaction wrote, judged by its snapshot and by all that it read or wrote.
fn certify<L: Ledger>(
    ledger: &mut L,
    snapshot: u32,
    reads: &[u8],
    writes: &[(u8, i32)],
) -> Result<u32, LedgerRefusal> {
    let list = set_of(writes);
    let mut read = ItemSet::empty();
    for item in reads {
        read.insert(*item);
    }
    file(ledger, snapshot, &read.union(&list), &list)
}

// Two transactions are numbered, one meets a conflict, and one comes back below the floor.
pub(crate) fn four<L: Ledger>(rt: &HostRuntime, name: &str, ledger: &mut L) -> io::Result<()> {
    println!(rt; "{name}")?;
    let sale = certify(ledger, 0, &[0], &[(0, 11)]);
    tell(rt, "a sale of item 0, begun at 0", sale)?;
    let delivery = certify(ledger, 0, &[1], &[(1, 12)]);
    tell(rt, "a delivery of item 1, begun at 0", delivery)?;
    let again = certify(ledger, 0, &[0], &[(0, 10)]);
    tell(rt, "another sale of item 0, begun at 0", again)?;
    ledger.trim(1);
    let floor = ledger.floor();
    let head = ledger.head();
    println!(rt; "  the ledger is trimmed: floor {floor}, head {head}")?;
    let count = certify(ledger, 0, &[], &[(3, 4)]);
    tell(rt, "a count of item 3, begun at 0", count)
}
