// What the refusal of a ninth item says.
ghost use Rattle.std.specs.Prelude.{Some, codes};

use super::ListFull;
use std::error::Error;
use std::fmt;

impl fmt::Display for ListFull {
    ghost output = { λ _. Some (codes "the write list has room for eight items: write the others in another transaction") };

    fn fmt<W: fmt::Write>(&self, f: &mut fmt::Formatter<W>) -> fmt::Result {
        f.write_str(
            "the write list has room for eight items: write the others in another transaction",
        )
    }
}

impl Error for ListFull {}
