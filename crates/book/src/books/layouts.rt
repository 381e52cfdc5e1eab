// Layouts: opening values, and the way into use and out of it.
ghost use Rattle.std.specs.Prelude.{◌≡◌, List, [], ◌∷◌};
ghost use Rattle.law.specs.Layouts.{laid_out, lay_answer, after_lay, book_in_use, opening_values, blanks};
ghost use Rattle.law.specs.Law.{Laid, Led};
ghost use Rattle.book.specs.Books.{book_of, layout_of, opening};

use super::{Book, Layout, Parts};
use crate::answers::answer;
use banks::Bank;
use entries::Kind;
use law::{Answer, Code};
use ledgers::Ledger;
use slots::SlotTable;
use std::marker::PhantomData;

impl<K: Kind, L: Ledger, B: Bank> Layout<K, L, B> {
    // Empties the ledger, and clears the replicas with the blank.
    pub fn new(parts: Parts<L, B>) -> Layout<K, L, B>
        ensures is { layout_of L.Ledger.means B.Bank.means result ≡ laid_out K.Kind.coding (L.Ledger.means parts.ledger) (B.Bank.means parts.bank) }
        ensures laid { Laid K.Kind.coding (blanks K.Kind.coding (B.Bank.means parts.bank)) (layout_of L.Ledger.means B.Bank.means result) }
    {
        let Parts {
            mut ledger,
            mut bank,
        } = parts;
        ledger.clear();
        bank.clear(K::encode(K::empty()));
        Layout {
            ledger,
            bank,
            kind: PhantomData,
        }
    }

    // Lays an opening value into every replica; refused where not every replica has the item.
    pub fn lay(&mut self, item: u32, value: K::Value) -> Answer<K::Value>
        ensures answer { result ≡ lay_answer K.Kind.coding (layout_of L.Ledger.means B.Bank.means self.old) item }
        ensures after { layout_of L.Ledger.means B.Bank.means self.new ≡ after_lay K.Kind.coding (layout_of L.Ledger.means B.Bank.means self.old) item value }
        ensures laid { (p : List K.Value) → Laid K.Kind.coding p (layout_of L.Ledger.means B.Bank.means self.old) → Laid K.Kind.coding (opening_values K.Kind.coding p (opening item value ∷ [])) (layout_of L.Ledger.means B.Bank.means self.new) }
    {
        // its one refusal is answered here, since nothing hands it on
        let word = K::encode(value);
        match self.bank.open_word(item as usize, word) {
            Ok(()) => answer::<K>(Code::Accepted, u64::from(item)),
            Err(_) => answer::<K>(Code::NoSuchItem, self.bank.items() as u64),
        }
    }

    // The book in use: every slot idle, nothing counted.
    pub fn open(self) -> Book<K, L, B>
        ensures is { book_of L.Ledger.means B.Bank.means result ≡ book_in_use K.Kind.coding (layout_of L.Ledger.means B.Bank.means self) }
        ensures starts { (p : List K.Value) → Laid K.Kind.coding p (layout_of L.Ledger.means B.Bank.means self) → Led K.Kind.coding p [] (book_of L.Ledger.means B.Bank.means result) }
    {
        let Layout { ledger, bank, kind } = self;
        Book {
            ledger,
            bank,
            slots: SlotTable::idle(),
            refusals: 0,
            kind,
        }
    }
}

impl<K: Kind, L: Ledger, B: Bank> Book<K, L, B> {
    // Ledger and bank again, with what they mean. A new layout can be made from them.
    pub fn wind_up(self) -> Parts<L, B>
        ensures ledger { L.Ledger.means result.ledger ≡ (book_of L.Ledger.means B.Bank.means self).ledger }
        ensures bank { B.Bank.means result.bank ≡ (book_of L.Ledger.means B.Bank.means self).replicas }
    {
        let Book {
            ledger,
            bank,
            slots: _,
            refusals: _,
            kind: _,
        } = self;
        Parts { ledger, bank }
    }
}
