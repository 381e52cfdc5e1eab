// The numbers of the stages.
ghost use Rattle.std.specs.Prelude.{◌≡◌, ◌++◌, Some, codes};
ghost use Rattle.std.specs.Fmt.{decimal};
ghost use Rattle.std.specs.Option.{ok_or};
ghost use Rattle.entries.specs.Cards.{stage_number, stage_of_number};

use super::Stage;
use std::error::Error;
use std::fmt;

// A number that no stage has.
#[derive(Clone, Copy, PartialEq, Eq, Debug)]
pub struct NoSuchStage(pub u64);

impl TryFrom<u64> for Stage {
    type Error = NoSuchStage;

    ghost try_from_gives = { λ number r. r ≡ ok_or (stage_of_number number) (record { 0 = number }) };

    fn try_from(number: u64) -> Result<Stage, NoSuchStage> {
        match number {
            1 => Ok(Stage::Received),
            2 => Ok(Stage::Waiting),
            3 => Ok(Stage::OnBench),
            4 => Ok(Stage::Ready),
            5 => Ok(Stage::Gone),
            _ => Err(NoSuchStage(number)),
        }
    }
}

impl From<Stage> for u64 {
    ghost from_gives = { λ stage r. r ≡ stage_number stage };

    fn from(stage: Stage) -> u64 {
        stage as u64
    }
}

impl fmt::Display for NoSuchStage {
    ghost output = { λ e. Some (codes "no stage has the number " ++ decimal e.0 ++ codes ": they are numbered from 1 to 5") };

    fn fmt<W: fmt::Write>(&self, f: &mut fmt::Formatter<W>) -> fmt::Result {
        write!(
            f,
            "no stage has the number {}: they are numbered from 1 to 5",
            self.0
        )
    }
}

impl Error for NoSuchStage {}
