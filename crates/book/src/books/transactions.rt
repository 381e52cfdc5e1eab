// The calls of a transaction: begin, read, write, file, close, drop. They take a site and a slot as two numbers, which is a
// form that the project asks for.
ghost use Rattle.std.specs.Prelude.{◌≡◌, [], ◌∷◌};
ghost use Rattle.law.specs.Letters.Letter.{begins, reads, writes, files, closes, drops};
ghost use Rattle.law.specs.Calls.{begin_call, read_call, write_call, file_call, close_call, drop_call};
ghost use Rattle.law.specs.Law.{KeepsLaw};
ghost use Rattle.book.specs.Answers.{answer_of, answer_or_why};
ghost use Rattle.book.specs.Books.{book_of, outcome, call_of};
ghost use Rattle.book.specs.Entering.{item_in, entry, entered};

use super::Book;
use crate::answers::{Refused, answer, answered, shown};
use banks::Bank;
use entries::Kind;
use entries::lists::MOST;
use law::{Answer, Code};
use ledgers::Ledger;
use slots::Place;

// A site has so many slots.
const SLOTS: usize = 8;

impl<K: Kind, L: Ledger, B: Bank> Book<K, L, B> {
    // Begins a transaction at the site's version.
    pub fn begin(&mut self, site: u32, slot: u32) -> Answer<K::Value>
        ensures is { outcome (book_of L.Ledger.means B.Bank.means self.new) result ≡ begin_call K.Kind.coding (book_of L.Ledger.means B.Bank.means self.old) site slot }
        ensures law { KeepsLaw K.Kind.coding (book_of L.Ledger.means B.Bank.means self.old) (call_of begins site slot 0 K.Kind.coding.blank ∷ []) (result ∷ []) (book_of L.Ledger.means B.Bank.means self.new) }
    {
        answered::<K>(self.enter('B', Place::new(site, slot)).map(u64::from))
    }

    // Reads an item: the transaction's own write, else the replica at the snapshot, and only then does it join the items read.
    pub fn read(&mut self, site: u32, slot: u32, item: u32) -> Answer<K::Value>
        ensures is { outcome (book_of L.Ledger.means B.Bank.means self.new) result ≡ read_call K.Kind.coding (book_of L.Ledger.means B.Bank.means self.old) site slot item }
        ensures law { KeepsLaw K.Kind.coding (book_of L.Ledger.means B.Bank.means self.old) (call_of reads site slot item K.Kind.coding.blank ∷ []) (result ∷ []) (book_of L.Ledger.means B.Bank.means self.new) }
    {
        match self.try_read(Place::new(site, slot), item) {
            Ok(shown) => shown,
            Err(refused) => answer::<K>(refused.code, refused.number),
        }
    }

    // Writes the value to an item.
    pub fn write(&mut self, site: u32, slot: u32, item: u32, value: K::Value) -> Answer<K::Value>
        ensures is { outcome (book_of L.Ledger.means B.Bank.means self.new) result ≡ write_call K.Kind.coding (book_of L.Ledger.means B.Bank.means self.old) site slot item value }
        ensures law { KeepsLaw K.Kind.coding (book_of L.Ledger.means B.Bank.means self.old) (call_of writes site slot item value ∷ []) (result ∷ []) (book_of L.Ledger.means B.Bank.means self.new) }
    {
        answered::<K>(self.try_write(Place::new(site, slot), item, value))
    }

    // Files a transaction: one without writes ends, and the ledger certifies one with writes by all items read or written.
    pub fn file(&mut self, site: u32, slot: u32) -> Answer<K::Value>
        ensures is { outcome (book_of L.Ledger.means B.Bank.means self.new) result ≡ file_call K.Kind.coding (book_of L.Ledger.means B.Bank.means self.old) site slot }
        ensures law { KeepsLaw K.Kind.coding (book_of L.Ledger.means B.Bank.means self.old) (call_of files site slot 0 K.Kind.coding.blank ∷ []) (result ∷ []) (book_of L.Ledger.means B.Bank.means self.new) }
    {
        answered::<K>(self.try_file(Place::new(site, slot)))
    }

    // Closes a filed slot whose number has been delivered to the site.
    pub fn close(&mut self, site: u32, slot: u32) -> Answer<K::Value>
        ensures is { outcome (book_of L.Ledger.means B.Bank.means self.new) result ≡ close_call K.Kind.coding (book_of L.Ledger.means B.Bank.means self.old) site slot }
        ensures law { KeepsLaw K.Kind.coding (book_of L.Ledger.means B.Bank.means self.old) (call_of closes site slot 0 K.Kind.coding.blank ∷ []) (result ∷ []) (book_of L.Ledger.means B.Bank.means self.new) }
    {
        answered::<K>(self.try_close(Place::new(site, slot)))
    }

    // Drops a transaction.
    pub fn discard(&mut self, site: u32, slot: u32) -> Answer<K::Value>
        ensures is { outcome (book_of L.Ledger.means B.Bank.means self.new) result ≡ drop_call K.Kind.coding (book_of L.Ledger.means B.Bank.means self.old) site slot }
        ensures law { KeepsLaw K.Kind.coding (book_of L.Ledger.means B.Bank.means self.old) (call_of drops site slot 0 K.Kind.coding.blank ∷ []) (result ∷ []) (book_of L.Ledger.means B.Bank.means self.new) }
    {
        answered::<K>(self.try_discard(Place::new(site, slot)))
    }

    // Tests site, slot and state; where they fit the call, the slot moves on and tells the number that it goes by. The letter is
    // a `char`, as the slot takes it.
    pub(crate) fn enter(&mut self, letter: char, at: Place) -> Result<u32, Refused>
        ensures { entry (book_of L.Ledger.means B.Bank.means self.new) result ≡ entered (book_of L.Ledger.means B.Bank.means self.old) letter at.site at.slot }
    {
        let version = self.known_version(at.site)?;
        if at.slot >= SLOTS {
            return Err(Refused {
                code: Code::NoSuchSlot,
                number: SLOTS as u64,
            });
        }
        self.slots
            .admit(at, letter, version)
            .map_err(|state| Refused {
                code: Code::WrongState,
                number: u64::from(state),
            })
    }

    // Refuses an item that not every replica has.
    fn known_item(&self, item: u32) -> Result<u8, Refused>
        ensures { result ≡ item_in (book_of L.Ledger.means B.Bank.means self.now) item }
    {
        let items = self.bank.items();
        if item as usize >= items {
            return Err(Refused {
                code: Code::NoSuchItem,
                number: items as u64,
            });
        }
        Ok(item as u8)
    }

    // The answer of a read that is not refused: the snapshot, and the value that it shows.
    fn try_read(&mut self, at: Place, item: u32) -> Result<Answer<K::Value>, Refused>
        ensures { outcome (book_of L.Ledger.means B.Bank.means self.new) (answer_or_why K.Kind.coding result) ≡ read_call K.Kind.coding (book_of L.Ledger.means B.Bank.means self.old) at.site at.slot item }
    {
        let snapshot = self.enter('R', at)?;
        let item = self.known_item(item)?;
        if let Some(word) = self.slots.get(at, item) {
            return Ok(Answer {
                code: Code::Accepted,
                number: u64::from(snapshot),
                value: K::decode(word),
            });
        }
        self.slots.note(at, item);
        let word = self.bank.read(at.site, snapshot, usize::from(item));
        Ok(Answer {
            code: Code::Accepted,
            number: u64::from(snapshot),
            value: shown::<K>(word),
        })
    }

    // The length of the write list that a write leaves.
    fn try_write(&mut self, at: Place, item: u32, value: K::Value) -> Result<u64, Refused>
        ensures { outcome (book_of L.Ledger.means B.Bank.means self.new) (answer_of K.Kind.coding result) ≡ write_call K.Kind.coding (book_of L.Ledger.means B.Bank.means self.old) at.site at.slot item value }
    {
        self.enter('W', at)?;
        let item = self.known_item(item)?;
        let word = K::encode(value);
        self.slots
            .put(at, item, word)
            .map(|length| length as u64)
            .map_err(|_| Refused {
                code: Code::ListFull,
                number: MOST as u64,
            })
    }

    // The number of the filed transaction whose slot is closed.
    fn try_close(&mut self, at: Place) -> Result<u64, Refused>
        ensures { outcome (book_of L.Ledger.means B.Bank.means self.new) (answer_of K.Kind.coding result) ≡ close_call K.Kind.coding (book_of L.Ledger.means B.Bank.means self.old) at.site at.slot }
    {
        let number = self.enter('C', at)?;
        let version = self.version_at(at.site);
        if number > version {
            return Err(Refused {
                code: Code::NotDelivered,
                number: u64::from(version),
            });
        }
        self.slots.end(at);
        Ok(u64::from(number))
    }

    // The snapshot of the transaction that is dropped.
    fn try_discard(&mut self, at: Place) -> Result<u64, Refused>
        ensures { outcome (book_of L.Ledger.means B.Bank.means self.new) (answer_of K.Kind.coding result) ≡ drop_call K.Kind.coding (book_of L.Ledger.means B.Bank.means self.old) at.site at.slot }
    {
        let snapshot = self.enter('X', at)?;
        self.settle(at.site);
        Ok(u64::from(snapshot))
    }
}
