// The same two days on a book with a scan ledger and on one with an index ledger, each with a page and an undo replica.
use crate::days::{Day, one_day};
use banks::{Alone, Beside};
use book::Parts;
use entries::WriteList;
use ledgers::{Finder, Index, LogLedger, Scan};
use replicas::{PageReplica, Record, UndoReplica};

// A day over a ledger that finds conflicts in one way, and another on a book that is laid out from the parts of the first.
// What they stand on lies in this frame.
fn two_days<F: Finder>() -> [Day; 2] {
    let mut entries = [WriteList::empty(); 4];
    let ledger = LogLedger::<F>::new(&mut entries);
    let mut page = [0u64; 4];
    let mut records = [Record::BLANK; 5];
    let mut other = [0u64; 6];
    let mut more = [Record::BLANK; 5];
    let bank = Beside {
        replica: PageReplica::new(&mut page, &mut records),
        rest: Alone {
            replica: UndoReplica::new(&mut other, &mut more),
        },
    };
    let (parts, one) = one_day(Parts { ledger, bank });
    let (parts, two) = one_day(parts);
    let Parts { ledger: _, bank: _ } = parts;
    [one, two]
}

// What every day must show.
const EXPECTED: Day = Day {
    opened_with: 12,
    filed_as: 1,
    turned_away: 8,
    delivered: 1,
    calls_run: 3,
    sold_down_to: 9,
};

#[test]
fn scan_ledger(rt: HostRuntime) {
    assert_eq!(rt; two_days::<Scan>(), [EXPECTED; 2]);
}

#[test]
fn index_ledger(rt: HostRuntime) {
    assert_eq!(rt; two_days::<Index>(), [EXPECTED; 2]);
}
