//! The debugger's loop: a line is read, its command done, and its answer sent.
ghost use Rattle.std.specs.Prelude.{◌≤◌};
ghost use Rattle.step_debugger.specs.Goings.{session_of, StopsApart};
ghost use Rattle.step_debugger.specs.Turns.{TakesLine, LineApart};
ghost use Rattle.step_debugger.specs.Transcript.{Debugged};

use crate::error::DebugError;
use crate::focus::Focus;
use crate::lines::LineReader;
use crate::session::{Ending, answer};
use back_step::Trail;
use bn_outside::{Sink, Source};
use rv_text::Text;
use std::alloc::Global;

// Reads the next line and does its command: whether the session continues after it.
fn answer_next<I: Source<O>, O: Sink>(
    trail: &mut Trail,
    focus: &mut Focus,
    reader: &mut LineReader,
    text: &mut Text,
    input: &mut I,
    out: &mut O,
) -> Result<bool, DebugError>
    ensures taken { TakesLine (session_of trail.old.trace focus.old) (session_of trail.new.trace focus.new) reader.old reader.new
        (I.source input.old) (I.source input.new) I.note (O.stream out.old) (O.stream out.new) result }
    ensures apart { LineApart trail.old.trace result trail.new.trace }
    ensures read { (I.source input.old).faults ≤ (I.source input.new).faults }
    ensures later { (O.stream out.old).faults ≤ (O.stream out.new).faults }
{
    let whole = match reader.next(input, out) {
        Err(failed) => return Err(failed),
        Ok(whole) => whole,
    };
    match answer(trail, focus, reader.line(), text, out) {
        Err(error) => Err(error),
        Ok(ending) => match ending {
            Ending::GoesOn => Ok(whole),
            Ending::Quits => Ok(false),
            Ending::Refused(error) => Err(DebugError::Joint(error)),
        },
    }
}

/// Reads commands from `input`, a line each, does them on a joint replay with its trail, and writes their answers
/// to `out`, each as soon as its command is done.
///
/// It is `Ok` after the command `quit`, after which nothing is read, and at the end of the input.
/// The source is read once for each byte that is gone. A further read is made only if it finds the end or fails. At each
/// read `out` has what it had before, the answers to all whole lines read so far, and nothing else.
///
/// It fails if a read or a write does, if a line has more than 256 bytes or all commands have more
/// than 2^24, if the joint replay is refused, and when out of memory. The answers before that stay.
pub fn debug<I: Source<O>, O: Sink>(
    alloc: Global,
    trail: &mut Trail,
    input: &mut I,
    out: &mut O,
) -> Result<(), DebugError>
    ensures told { Debugged trail.old.trace (I.source input.old) (I.source input.new) I.note (O.stream out.old) (O.stream out.new) result }
    ensures apart { StopsApart trail.old.trace result trail.new.trace }
    ensures read { (I.source input.old).faults ≤ (I.source input.new).faults }
    ensures later { (O.stream out.old).faults ≤ (O.stream out.new).faults }
{
    let mut reader = LineReader::new(alloc);
    let mut focus = Focus {
        hart: 0,
        breaks: Vec::new(alloc),
    };
    let mut text = Text::new(alloc);
    'lines: loop {
        match answer_next(trail, &mut focus, &mut reader, &mut text, input, out) {
            Err(error) => return Err(error),
            Ok(goes_on) => {
                if !goes_on {
                    return Ok(());
                }
            }
        }
    }
}
