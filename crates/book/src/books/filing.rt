// How a transaction is filed, and what becomes of its slot.
ghost use Rattle.std.specs.Prelude.{◌≡◌, ◌<◌, Err};
ghost use Rattle.law.specs.Books.{site_count};
ghost use Rattle.law.specs.Calls.{turned_away, file_by, file_call};
ghost use Rattle.book.specs.Answers.{answer_of, refusal};
ghost use Rattle.book.specs.Books.{book_of, outcome};
ghost use Rattle.book.specs.Filing.{ended, filing};

use super::Book;
use crate::answers::Refused;
use banks::Bank;
use entries::Kind;
use law::Code;
use ledgers::{Ledger, LedgerRefusal, file};
use slots::Place;

// The count of filings turned away, and the numbers of versions, end here.
const LAST: u32 = 999999;

impl<K: Kind, L: Ledger, B: Bank> Book<K, L, B> {
    // The transaction of a slot is over: the slot is idle, and the horizon moves.
    fn end(&mut self, at: Place)
        ensures { book_of L.Ledger.means B.Bank.means self.new ≡ ended (book_of L.Ledger.means B.Bank.means self.old) at.site at.slot }
    {
        self.slots.end(at);
        self.settle(at.site);
    }

    // A filing is turned away for good: its transaction is over, and it is counted.
    fn turn_away(&mut self, at: Place, code: Code, number: u32) -> Refused
        ensures { outcome (book_of L.Ledger.means B.Bank.means self.new) (refusal K.Kind.coding result) ≡ turned_away K.Kind.coding (book_of L.Ledger.means B.Bank.means self.old) at.site at.slot code number }
    {
        self.end(at);
        if self.refusals < LAST {
            self.refusals += 1;
        }
        Refused {
            code,
            number: u64::from(number),
        }
    }

    // The number under which a transaction is filed, or its snapshot where it has no writes.
    pub(crate) fn try_file(&mut self, at: Place) -> Result<u64, Refused>
        ensures { outcome (book_of L.Ledger.means B.Bank.means self.new) (answer_of K.Kind.coding result) ≡ file_call K.Kind.coding (book_of L.Ledger.means B.Bank.means self.old) at.site at.slot }
    {
        let snapshot = self.enter('F', at)?;
        self.file_open(at, snapshot)
    }

    // Files an open transaction.
    fn file_open(&mut self, at: Place, snapshot: u32) -> Result<u64, Refused>
        requires { at.site < site_count (book_of L.Ledger.means B.Bank.means self.old) }
        ensures { outcome (book_of L.Ledger.means B.Bank.means self.new) (answer_of K.Kind.coding result) ≡ filing K.Kind.coding (book_of L.Ledger.means B.Bank.means self.old) at.site at.slot snapshot }
    {
        let list = self.slots.list(at);
        if list.len() == 0 {
            self.end(at);
            return Ok(u64::from(snapshot));
        }
        let items = self.slots.touched(at);
        match file(&mut self.ledger, snapshot, &items, &list) {
            Ok(number) => {
                self.slots.filed(at, number);
                self.settle(at.site);
                Ok(u64::from(number))
            }
            Err(refusal) => self.refuse_filing(at, snapshot, refusal),
        }
    }

    // What a filing comes to that the ledger refused.
    fn refuse_filing(
        &mut self,
        at: Place,
        snapshot: u32,
        refusal: LedgerRefusal,
    ) -> Result<u64, Refused>
        ensures { outcome (book_of L.Ledger.means B.Bank.means self.new) (answer_of K.Kind.coding result) ≡ file_by K.Kind.coding (book_of L.Ledger.means B.Bank.means self.old) at.site at.slot snapshot (book_of L.Ledger.means B.Bank.means self.old).ledger (Err refusal) }
    {
        match refusal {
            LedgerRefusal::BelowFloor(floor) => {
                Err(self.turn_away(at, Code::SnapshotTrimmed, floor))
            }
            LedgerRefusal::Conflict(version) => {
                Err(self.turn_away(at, Code::Conflicting, version))
            }
            LedgerRefusal::NoWrites => {
                self.end(at);
                Ok(u64::from(snapshot))
            }
            LedgerRefusal::LastVersion => Err(Refused {
                code: Code::NumbersUsedUp,
                number: u64::from(LAST),
            }),
            LedgerRefusal::Full => Err(Refused {
                code: Code::LedgerFull,
                number: self.ledger.capacity() as u64,
            }),
        }
    }
}
