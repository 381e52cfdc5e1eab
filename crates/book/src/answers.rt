// Answers, and why a call is refused.
ghost use Rattle.std.specs.Prelude.{◌≡◌};
ghost use Rattle.law.specs.Calls.{plain, shown_as};
ghost use Rattle.book.specs.Answers.{answer_of};

use entries::Kind;
use law::{Answer, Code};
use replicas::Refusal;

// Why a call is refused: the code and the number of its answer.
#[derive(Clone, Copy, PartialEq, Eq, Debug)]
pub struct Refused {
    pub code: Code,
    pub number: u64,
}

// An answer that shows no value.
pub fn answer<K: Kind>(code: Code, number: u64) -> Answer<K::Value>
    ensures { result ≡ plain K.Kind.coding code number }
{
    Answer {
        code,
        number,
        value: K::empty(),
    }
}

// The answer that tells the number of what was done, or why it was refused.
pub fn answered<K: Kind>(verdict: Result<u64, Refused>) -> Answer<K::Value>
    ensures { result ≡ answer_of K.Kind.coding verdict }
{
    match verdict {
        Ok(number) => answer::<K>(Code::Accepted, number),
        Err(refused) => answer::<K>(refused.code, refused.number),
    }
}

// The value of a word that a replica shows; the blank where it refused.
pub fn shown<K: Kind>(word: Result<u64, Refusal>) -> K::Value
    ensures { result ≡ shown_as K.Kind.coding word }
{
    match word {
        Ok(word) => K::decode(word),
        Err(_) => K::empty(),
    }
}
