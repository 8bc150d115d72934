//! The command `salvage`: the undamaged end of a log saved in version 2.
ghost use Rattle.log_commands.specs.SaveCounts.{IsRenewed};
ghost use Rattle.log_commands.specs.NewLogs.{IsBySalvage};
ghost use Rattle.log_commands.specs.Answering.{Answers};

use crate::answer::{Answer, NewLog};
use crate::refusal::Refusal;
use log_blocks::{SalvageError, salvage_file};
use std::alloc::Global;

/// What is undamaged at the end of a log file of version 2, as a file that is to be saved.
pub fn evaluate(alloc: Global, origin: &[u8]) -> Result<Answer, Refusal>
    ensures { Answers IsRenewed (λ names. IsBySalvage names origin.now) result }
{
    match salvage_file(alloc, origin) {
        Ok(new) => Ok(Answer::Renewed(NewLog {
            file: new.bytes,
            counts: new.counts,
        })),
        Err(SalvageError::File(damage)) => Err(Refusal::LogRefused(damage)),
        Err(SalvageError::NothingLeft) => Err(Refusal::NothingLeft),
        Err(SalvageError::OutOfMemory) => Err(Refusal::OutOfMemory),
    }
}
