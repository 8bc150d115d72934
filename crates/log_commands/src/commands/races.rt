//! The command `races`: the races of what a log keeps.
ghost use Rattle.std.specs.Prelude.{◌≡◌};
ghost use Rattle.log_commands.specs.SaveCounts.{IsMade};
ghost use Rattle.log_commands.specs.RaceAnswers.{races_with};
ghost use Rattle.log_commands.specs.Answering.{Answers};
ghost use Rattle.log_commands.specs.Commands.{IsByLog};
ghost use Rattle.log_commands.specs.Pairs.{pair_of};

use crate::answer::Answer;
use crate::pairs::{JointReading, read_pair};
use crate::refusal::Refusal;
use race_report::{RaceError, races_text};
use std::alloc::Global;

// The races of a log with its program, at most so many.
fn races_of(alloc: Global, reading: &JointReading, most: u64) -> Result<Answer, Refusal>
    ensures { Answers IsMade (λ names what. what ≡ races_with names most reading.now.log reading.now.image) result }
{
    match races_text(alloc, &reading.image, &reading.log, most) {
        Ok(text) => Ok(Answer::Shown(text)),
        Err(RaceError::Joint(error)) => Err(Refusal::of_joint(error)),
        Err(RaceError::TooMany { max }) => Err(Refusal::TooManyRaces { most: max }),
        Err(RaceError::OutOfMemory) => Err(Refusal::OutOfMemory),
    }
}

/// The races of what a log file with its program file keeps, if there are at most so many.
pub fn evaluate(alloc: Global, log: &[u8], elf: &[u8], most: u64) -> Result<Answer, Refusal>
    ensures { Answers IsMade (λ names. IsByLog names log.now (pair_of (races_with names most) names elf.now)) result }
{
    let pair = read_pair(alloc, log, elf)?;
    races_of(alloc, &pair, most)
}
