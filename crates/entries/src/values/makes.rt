// Making values.
ghost use Rattle.std.specs.Prelude.{◌≡◌};

use super::{Card, Count, Stage};

impl Count {
    pub fn new(number: i32) -> Count
        ensures { result.number ≡ number }
    {
        Count { number }
    }
}

impl Card {
    pub fn new(stage: Stage, bench: u8, part: u16, minutes: u16) -> Card
        ensures stage { result.stage ≡ stage }
        ensures bench { result.bench ≡ bench }
        ensures part { result.part ≡ part }
        ensures minutes { result.minutes ≡ minutes }
    {
        Card {
            stage,
            bench,
            part,
            minutes,
        }
    }
}
