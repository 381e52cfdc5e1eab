// One call by its letter, runs of calls, and the whole way from a layout to the parts that are given back.
ghost use Rattle.std.specs.Prelude.{◌≡◌, ◌≤◌, List, [], ◌∷◌, ◌++◌, length, drop};
ghost use Rattle.law.specs.Letters.{letter_of};
ghost use Rattle.law.specs.Calls.{step_by};
ghost use Rattle.law.specs.Layouts.{book_in_use};
ghost use Rattle.law.specs.Runs.{book_after, answers_to, calls_made, run_answer, after_run, answers_after_run};
ghost use Rattle.law.specs.History.{told};
ghost use Rattle.law.specs.Law.{KeepsLaw, Laid, Lawful};
ghost use Rattle.book.specs.Books.{book_of, layout_of, outcome, call_of};

use super::{Book, Layout, Parts};
use crate::answers::answer;
use banks::Bank;
use entries::Kind;
use law::{Answer, Call, Code};
use ledgers::Ledger;

// What a layout that was served gives back: the parts, and what the run was answered.
pub struct Served<L, B, V> {
    pub parts: Parts<L, B>,
    pub answer: Answer<V>,
}

impl<K: Kind, L: Ledger, B: Bank> Book<K, L, B> {
    // One call by its letter, which as a `char` chooses among literal cases: the project asks for this form. A char that is the
    // letter of no call is refused.
    pub fn call(&mut self, letter: char, call: Call<K::Value>) -> Answer<K::Value>
        ensures is { outcome (book_of L.Ledger.means B.Bank.means self.new) result ≡ step_by K.Kind.coding (letter_of letter) (book_of L.Ledger.means B.Bank.means self.old) call }
        ensures law { KeepsLaw K.Kind.coding (book_of L.Ledger.means B.Bank.means self.old) (call_of (letter_of letter) call.site call.slot call.arg call.value ∷ []) (result ∷ []) (book_of L.Ledger.means B.Bank.means self.new) }
    {
        match letter {
            'B' => self.begin(call.site, call.slot),
            'R' => self.read(call.site, call.slot, call.arg),
            'W' => self.write(call.site, call.slot, call.arg, call.value),
            'F' => self.file(call.site, call.slot),
            'C' => self.close(call.site, call.slot),
            'X' => self.discard(call.site, call.slot),
            'D' => self.deliver(call.site),
            'T' => self.trim(call.arg),
            'U' => self.restart(call.site),
            'V' => self.version(call.site),
            'N' => self.count(),
            // refused here, since no call is made that could hand it on
            _ => answer::<K>(Code::NoSuchLetter, 0),
        }
    }

    // The calls one after another, each answered at its place.
    fn run_all(&mut self, calls: &[Call<K::Value>], answers: &mut [Answer<K::Value>])
        requires { length calls.now ≤ length answers.old }
        ensures after { book_of L.Ledger.means B.Bank.means self.new ≡ book_after K.Kind.coding (book_of L.Ledger.means B.Bank.means self.old) calls.now }
        ensures answers { answers.new ≡ answers_to K.Kind.coding (book_of L.Ledger.means B.Bank.means self.old) calls.now ++ drop (length calls.now) answers.old }
    {
        // by places: after a `zip` with `iter_mut` nothing is known of the answers
        for (i, call) in calls.iter().enumerate() {
            answers[i] = self.call(char::from(call.letter), *call);
        }
    }

    // Refused, with no call made, where there are fewer answers than calls. Whatever opening values and history led to the
    // book, the law holds of that history with the calls made here.
    pub fn run(
        &mut self,
        calls: &[Call<K::Value>],
        answers: &mut [Answer<K::Value>],
    ) -> Answer<K::Value>
        ensures answer { result ≡ run_answer K.Kind.coding calls.now answers.old }
        ensures after { book_of L.Ledger.means B.Bank.means self.new ≡ after_run K.Kind.coding (book_of L.Ledger.means B.Bank.means self.old) calls.now answers.old }
        ensures answers { answers.new ≡ answers_after_run K.Kind.coding (book_of L.Ledger.means B.Bank.means self.old) calls.now answers.old }
        ensures law { KeepsLaw K.Kind.coding (book_of L.Ledger.means B.Bank.means self.old) (calls_made calls.now answers.old) answers.new (book_of L.Ledger.means B.Bank.means self.new) }
    {
        // its one refusal is answered here, since nothing hands it on
        let count = calls.len();
        if answers.len() < count {
            return answer::<K>(Code::TooFewAnswers, count as u64);
        }
        self.run_all(calls, answers);
        answer::<K>(Code::Accepted, count as u64)
    }
}

// Opens the layout, runs the calls and winds up. Whatever opening values were laid in, the law holds of calls and answers.
pub fn serve<K: Kind, L: Ledger, B: Bank>(
    layout: Layout<K, L, B>,
    calls: &[Call<K::Value>],
    answers: &mut [Answer<K::Value>],
) -> Served<L, B, K::Value>
    ensures answer { result.answer ≡ run_answer K.Kind.coding calls.now answers.old }
    ensures answers { answers.new ≡ answers_after_run K.Kind.coding (book_in_use K.Kind.coding (layout_of L.Ledger.means B.Bank.means layout)) calls.now answers.old }
    ensures ledger { L.Ledger.means result.parts.ledger ≡ (after_run K.Kind.coding (book_in_use K.Kind.coding (layout_of L.Ledger.means B.Bank.means layout)) calls.now answers.old).ledger }
    ensures bank { B.Bank.means result.parts.bank ≡ (after_run K.Kind.coding (book_in_use K.Kind.coding (layout_of L.Ledger.means B.Bank.means layout)) calls.now answers.old).replicas }
    ensures law { (p : List K.Value) → Laid K.Kind.coding p (layout_of L.Ledger.means B.Bank.means layout) → Lawful K.Kind.coding p (told [] (calls_made calls.now answers.old) answers.new) (L.Ledger.means result.parts.ledger) (B.Bank.means result.parts.bank) }
{
    let mut book = layout.open();
    let answer = book.run(calls, answers);
    Served {
        parts: book.wind_up(),
        answer,
    }
}
