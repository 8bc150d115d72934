//! The command `slice`: the backward slice of a row.
ghost use Rattle.std.specs.Prelude.{◌≡◌};
ghost use Rattle.log_commands.specs.SaveCounts.{IsMade};
ghost use Rattle.log_commands.specs.SliceAnswers.{slice_with};
ghost use Rattle.log_commands.specs.Answering.{Answers};
ghost use Rattle.log_commands.specs.Commands.{IsByLog};
ghost use Rattle.log_commands.specs.Pairs.{pair_of};

use crate::answer::Answer;
use crate::pairs::{JointReading, read_pair};
use crate::refusal::Refusal;
use bn_base::Ic;
use slice_back::{SliceError, slice_text};
use std::alloc::Global;

// The backward slice of the row of a count in an interval of a log with its program.
fn slice_of(
    alloc: Global,
    reading: &JointReading,
    hart: u64,
    interval: u64,
    ic: Ic,
) -> Result<Answer, Refusal>
    ensures { Answers IsMade (λ names what. what ≡ slice_with names hart interval ic reading.now.log reading.now.image) result }
{
    match slice_text(alloc, &reading.image, &reading.log, hart, interval, ic) {
        Ok(text) => Ok(Answer::Shown(text)),
        Err(SliceError::Replay(error)) => Err(Refusal::ReplayStopped(error)),
        Err(SliceError::NoRow { ic }) => Err(Refusal::NoRow { ic }),
        Err(SliceError::OutOfMemory) => Err(Refusal::OutOfMemory),
    }
}

/// The backward slice of the row of a count in an interval of a log file with its program file.
pub fn evaluate(
    alloc: Global,
    log: &[u8],
    elf: &[u8],
    hart: u64,
    interval: u64,
    ic: Ic,
) -> Result<Answer, Refusal>
    ensures { Answers IsMade (λ names. IsByLog names log.now (pair_of (slice_with names hart interval ic) names elf.now)) result }
{
    let pair = read_pair(alloc, log, elf)?;
    slice_of(alloc, &pair, hart, interval, ic)
}
