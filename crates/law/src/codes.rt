// The codes of answers.
ghost use Rattle.std.specs.Prelude.{◌≡◌};
ghost use Rattle.law.specs.Codes.{code_number};

// Whether a call was carried out, or why not. The tests of a call run in the order of the codes.
#[derive(Clone, Copy, PartialEq, Eq, Debug)]
pub enum Code {
    Accepted = 0,
    NoSuchLetter = 1,
    NoSuchSite = 2,
    NoSuchSlot = 3,
    WrongState = 4,
    NoSuchItem = 5,
    ListFull = 6,
    SnapshotTrimmed = 7,
    Conflicting = 8,
    NumbersUsedUp = 9,
    LedgerFull = 10,
    NotDelivered = 11,
    NothingToDeliver = 12,
    ReplicaFull = 13,
    AboveHead = 14,
    SiteBehind = 15,
    TooFewAnswers = 16,
}

impl Code {
    // The number that stands for the code in text.
    pub fn number(self) -> u8
        ensures { result ≡ code_number self }
    {
        self as u8
    }
}
