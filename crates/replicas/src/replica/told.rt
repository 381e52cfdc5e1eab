// What a refusal says to a person.
ghost use Rattle.std.specs.Prelude.{Some};
ghost use Rattle.replicas.specs.Told.{refusal_text};

use super::Refusal;
use std::error::Error;
use std::fmt;

impl fmt::Display for Refusal {
    ghost output = { λ r. Some (refusal_text r) };

    fn fmt<W: fmt::Write>(&self, f: &mut fmt::Formatter<W>) -> fmt::Result {
        f.write_str(match self {
            Refusal::InUse => "the replica is in use: opening words come before the first version",
            Refusal::NotKept => "that version is not kept here",
            Refusal::NoSuchItem => "there is no such item",
            Refusal::NoWrites => "a set without writes is no version",
            Refusal::NoRoom => "there are not enough records left: forget old versions first",
            Refusal::LastVersion => "no version comes after 999,999",
            Refusal::NoSuchSite => "there is no such site",
        })
    }
}

impl Error for Refusal {}
