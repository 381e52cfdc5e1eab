// One write of a version's set.
ghost use Rattle.std.specs.Prelude.{◌≡◌};

#[derive(Clone, Copy, PartialEq, Eq, Debug)]
pub struct Record {
    pub(crate) item: u8,
    pub(crate) version: u32,
    pub(crate) word: u64,
}

impl Record {
    // What a buffer of records can be filled with.
    pub const BLANK: Record = Record {
        item: 0,
        version: 0,
        word: 0,
    };
}

impl Default for Record {
    // The blank, with what it is.
    fn default() -> Record
        ensures { result ≡ record { item = 0; version = 0; word = 0 } }
    {
        Self::BLANK
    }
}
