//! The command `convert`: a log saved in version 2.
ghost use Rattle.std.specs.Prelude.{◌≡◌};
ghost use Rattle.log_commands.specs.SaveCounts.{IsRenewed};
ghost use Rattle.log_commands.specs.Commands.{IsByLog};
ghost use Rattle.log_commands.specs.NewLogs.{renewed};
ghost use Rattle.log_commands.specs.Answering.{Answers};

use crate::answer::{Answer, NewLog, read_log};
use crate::refusal::Refusal;
use log_blocks::{counts_of, write_log2};
use log_order::KeptLog;
use std::alloc::Global;

// The file of version 2 of a log, and what the log has.
fn renew(alloc: Global, log: &KeptLog) -> Result<Answer, Refusal>
    ensures { Answers IsRenewed (λ names what. what ≡ renewed log.now) result }
{
    let file = write_log2(alloc, log)?;
    Ok(Answer::Renewed(NewLog {
        file,
        counts: counts_of(log),
    }))
}

/// What a log file of either version says, as a file of version 2 that is to be saved.
pub fn evaluate(alloc: Global, origin: &[u8]) -> Result<Answer, Refusal>
    ensures { Answers IsRenewed (λ names. IsByLog names origin.now renewed) result }
{
    let log = read_log(alloc, origin)?;
    renew(alloc, &log)
}
