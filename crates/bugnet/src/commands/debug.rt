//! The command `debug`: a session of the debugger over the joint replay of all intervals that a log keeps.
ghost use Rattle.std.specs.Prelude.{◌≡◌};
ghost use Rattle.bugnet.specs.Common.{at_start, Joining, joined};
ghost use Rattle.bugnet.specs.Sessions.{reading, stop_refusal};
ghost use Rattle.bugnet.specs.Steps.{SessionTo, DebugsTo};

use back_step::Trail;
use bn_outside::{Sink, Source, Store};
use log_commands::names::Names;
use log_commands::pairs::{JointReading, load_pair};
use log_commands::refusal::Refusal;
use std::alloc::Global;
use step_debugger::{DebugError, debug};

// After how many steps a session keeps a copy of its joint replay, to go back to.
const COPY_EVERY: u64 = 65_536;

// Why a session stopped.
fn refusal_of(error: DebugError) -> Refusal
    ensures { result ≡ stop_refusal error }
{
    match error {
        DebugError::ReadFault => Refusal::ReadFailed,
        DebugError::WriteFault => Refusal::WriteFailed,
        DebugError::LineTooLong { .. } => Refusal::LineTooLong,
        DebugError::TooMuch { .. } => Refusal::CommandsTooLong,
        DebugError::Joint(error) => Refusal::of_joint(error),
        DebugError::OutOfMemory => Refusal::OutOfMemory,
    }
}

// Makes a session over a joint replay that stands at its start.
fn debug_trail<I: Source<O>, O: Sink>(
    alloc: Global,
    trail: &mut Trail,
    input: &mut I,
    out: &mut O,
) -> Result<(), Refusal>
    ensures { (first : Joining) → trail.old.trace ≡ at_start first → SessionTo first (reading I.source I.note input.old input.new)
        (O.stream out.old) (O.stream out.new) result }
{
    match debug(alloc, trail, input, out) {
        Ok(()) => Ok(()),
        Err(error) => Err(refusal_of(error)),
    }
}

// Makes a session of a log with its program.
fn debug_pair<I: Source<O>, O: Sink>(
    alloc: Global,
    pair: &JointReading,
    input: &mut I,
    out: &mut O,
) -> Result<(), Refusal>
    ensures { SessionTo (joined pair.now.log pair.now.image) (reading I.source I.note input.old input.new)
        (O.stream out.old) (O.stream out.new) result }
{
    match Trail::begin(alloc, &pair.image, &pair.log, COPY_EVERY) {
        Err(_) => Err(Refusal::OutOfMemory),
        Ok(mut trail) => debug_trail(alloc, &mut trail, input, out),
    }
}

/// Loads a log and a program, and makes a session of the debugger: it reads commands from `input`, and
/// sends their answers to `out`. Before the files are loaded and tested nothing is read.
pub fn debug_files<S: Store, I: Source<O>, O: Sink>(
    alloc: Global,
    names: &Names,
    files: &mut S,
    input: &mut I,
    out: &mut O,
) -> Result<(), Refusal>
    ensures { DebugsTo names.now S.note (reading I.source I.note input.old input.new) (S.stored files.old) (S.stored files.new)
        (O.stream out.old) (O.stream out.new) result }
{
    let pair = load_pair(alloc, names, files)?;
    debug_pair(alloc, &pair, input, out)
}
