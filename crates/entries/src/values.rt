// The values of the two kinds of entry. The ghost fields say that each number fits its field.
ghost use Rattle.std.specs.Prelude.{◌<◌, pos, negsuc, ◌≤ℤ◌};

pub mod makes;
pub mod stages;

// A shelf count.
#[derive(Clone, Copy, PartialEq, Eq, Debug)]
pub struct Count {
    pub number: i32,
    ghost low: { negsuc 2147483647 ≤ℤ number },
    ghost high: { number ≤ℤ pos 2147483647 },
}

// How far a job has come.
#[derive(Clone, Copy, PartialEq, Eq, Debug)]
pub enum Stage {
    Received = 1,
    Waiting = 2,
    OnBench = 3,
    Ready = 4,
    Gone = 5,
}

// A job card.
#[derive(Clone, Copy, PartialEq, Eq, Debug)]
pub struct Card {
    pub stage: Stage,
    pub bench: u8,
    pub part: u16,
    pub minutes: u16,
    ghost bench_fits: { bench < 256 },
    ghost part_fits: { part < 65536 },
    ghost minutes_fit: { minutes < 65536 },
}
