// Worked examples.
ghost use Rattle.std.specs.Prelude.{◌≡◌};

use crate::kinds::Kind;
use crate::values::{Card, Count, Stage};

// The words of the card on bench 2, of part 5, after 1 minute, and of the count -1.
pub fn worked_words() -> (u64, u64)
    ensures card { result.0 ≡ 4295295491 }
    ensures count { result.1 ≡ 4294967295 }
{
    let card = Card::new(Stage::OnBench, 2, 5, 1);
    let count = Count::new(-1);
    (Card::encode(card), Count::encode(count))
}
