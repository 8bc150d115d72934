//! The command `replay`: what the recorded run did in one interval.
ghost use Rattle.std.specs.Prelude.{◌≡◌, IfOk, ◌⊎◌, IfErr};
ghost use Rattle.log_commands.specs.Commands.{IsByLog, replay_with};
ghost use Rattle.log_commands.specs.Outside.{IsPrinted, told_of_reading};
ghost use Rattle.log_commands.specs.Logs.{IsBegun, IsAbsent};
ghost use Rattle.log_commands.specs.declared.refusal.Refusal.TheVariants.{OutOfMemory};
ghost use Rattle.log_commands.specs.Answering.{Answers};
ghost use Rattle.log_commands.specs.Pairs.{pair_of};
ghost use Rattle.log_commands.specs.Printed.{text_from, IsCutShort};
ghost use Rattle.log_commands.specs.Effects.{PrintsTo};

use crate::answer::{Answer, IntervalToReplay};
use crate::pairs::read_pair;
use crate::refusal::Refusal;
use crate::replay_lines::{ReplayEnd, send_interval};
use bn_base::EndMark;
use bn_outside::Sink;
use hart_replay::{ReplayError, Replayer};
use std::alloc::Global;

/// An interval of a log file with its program file, to be replayed.
pub fn evaluate(
    alloc: Global,
    log: &[u8],
    elf: &[u8],
    hart: u64,
    interval: u64,
) -> Result<Answer, Refusal>
    ensures { Answers IsPrinted (λ names. IsByLog names log.now (pair_of (replay_with names hart interval) names elf.now)) result }
{
    let pair = read_pair(alloc, log, elf)?;
    Ok(Answer::Interval(IntervalToReplay {
        image: pair.image,
        log: pair.log,
        hart,
        interval,
    }))
}

// Begins the replay of an interval.
fn begin(alloc: Global, reading: &IntervalToReplay) -> Result<Replayer<'_>, Refusal>
    ensures begun { IfOk result (λ r. IsBegun reading.now r r.mark) }
    ensures refused { IfErr result (λ r. IsAbsent reading.now r ⊎ (r ≡ OutOfMemory)) }
{
    match Replayer::begin(
        alloc,
        &reading.image,
        &reading.log,
        reading.hart,
        reading.interval,
    ) {
        Err(ReplayError::OutOfMemory) => Err(Refusal::OutOfMemory),
        Err(error) => Err(Refusal::ReplayStopped(error)),
        Ok(replayer) => Ok(replayer),
    }
}

// Prints an interval whose replay was begun.
fn print_begun<O: Sink>(
    alloc: Global,
    reading: &IntervalToReplay,
    mark: &EndMark,
    replayer: &mut Replayer,
    out: &mut O,
) -> Result<(), Refusal>
    requires { IsBegun reading.now replayer.old mark.now }
    ensures prints { PrintsTo (λ names. told_of_reading names reading.now) (O.stream out.old) (O.stream out.new) result }
    ensures memory { let r = replayer.old in IfErr result (IsCutShort (text_from reading.now.hart reading.now.interval r.state.ic mark.now r.left) replayer.new (O.stream out.old) (O.stream out.new)) }
{
    let end = send_interval(alloc, reading.hart, reading.interval, mark, replayer, out)?;
    match end {
        ReplayEnd::Done => Ok(()),
        ReplayEnd::Stopped(error) => Err(Refusal::ReplayStopped(error)),
    }
}

/// Prints an interval.
pub fn print_interval<O: Sink>(
    alloc: Global,
    reading: &IntervalToReplay,
    out: &mut O,
) -> Result<(), Refusal>
    ensures { PrintsTo (λ names. told_of_reading names reading.now) (O.stream out.old) (O.stream out.new) result }
{
    let mut replayer = begin(alloc, reading)?;
    let mark = replayer.mark();
    print_begun(alloc, reading, &mark, &mut replayer, out)
}
