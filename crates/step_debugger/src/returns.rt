//! Steps back, as commands take them, down to a breakpoint.
ghost use Rattle.std.specs.Prelude.{◌≡◌, ◌≤◌, length, Some, None, IfSome};
ghost use Rattle.step_debugger.specs.Answers.{stop_before, stop_below, back_by, back_to, back_to_stop};
ghost use Rattle.step_debugger.specs.Goings.{MovesBy, TellsApart};

use crate::error::DebugError;
use crate::session::Ending;
use crate::stop::Stop;
use crate::texts::{push_position, push_stop};
use back_step::{Entry, Trail};
use bn_base::Addr;
use rv_text::Text;

/// So many steps back, but no further than the beginning.
pub(crate) fn back(trail: &mut Trail, count: u32, text: &mut Text) -> Result<Ending, DebugError>
    ensures told { MovesBy (back_by count trail.old.trace) result trail.new.trace text.old text.new }
    ensures apart { TellsApart trail.old.trace result trail.new.trace }
{
    let to = trail.position().saturating_sub(u64::from(count));
    match trail.seek(to) {
        Err(_) => Err(DebugError::OutOfMemory),
        Ok(_) => match push_position(text, to) {
            Ok(()) => Ok(Ending::GoesOn),
            Err(_) => Err(DebugError::OutOfMemory),
        },
    }
}

// The stop before a step, if its row is at a breakpoint.
fn stop_before(breaks: &[Addr], position: u64, entry: Option<Entry>) -> Option<Stop>
    ensures stop { result ≡ stop_before breaks.now position entry }
    ensures place { IfSome result (λ s. s.position ≡ position) }
{
    match entry {
        None => None,
        Some(entry) => match entry.pc {
            None => None,
            Some(pc) => {
                if breaks.contains(&pc) {
                    Some(Stop {
                        position,
                        hart: entry.hart,
                        ic: entry.ic,
                        pc,
                    })
                } else {
                    None
                }
            }
        },
    }
}

// The latest stop below the present position.
fn stop_below(breaks: &[Addr], trail: &Trail) -> Option<Stop>
    ensures stop { result ≡ stop_below breaks.now trail.now.trace.entries (length trail.now.trace.entries) }
    ensures place { IfSome result (λ s. s.position ≤ length trail.now.trace.entries) }
{
    let position = trail.position();
    for passed in 0..position {
        let at = position - 1 - passed;
        if let Some(stop) = stop_before(breaks, at, trail.entry(at)) {
            return Some(stop);
        }
    }
    None
}

// To the start.
fn go_to_start(trail: &mut Trail, text: &mut Text) -> Result<Ending, DebugError>
    ensures told { MovesBy (back_to trail.old.trace None) result trail.new.trace text.old text.new }
    ensures apart { TellsApart trail.old.trace result trail.new.trace }
{
    match trail.seek(0) {
        Err(_) => Err(DebugError::OutOfMemory),
        Ok(_) => match text.push_str("start\n") {
            Ok(()) => Ok(Ending::GoesOn),
            Err(_) => Err(DebugError::OutOfMemory),
        },
    }
}

// To a stop.
fn go_to_stop(trail: &mut Trail, stop: &Stop, text: &mut Text) -> Result<Ending, DebugError>
    requires { stop.now.position ≤ length trail.old.trace.entries }
    ensures told { MovesBy (back_to trail.old.trace (Some stop.now)) result trail.new.trace text.old text.new }
    ensures apart { TellsApart trail.old.trace result trail.new.trace }
{
    match trail.seek(stop.position) {
        Err(_) => Err(DebugError::OutOfMemory),
        Ok(_) => match push_stop(text, stop.hart, stop.ic, stop.pc) {
            Ok(()) => Ok(Ending::GoesOn),
            Err(_) => Err(DebugError::OutOfMemory),
        },
    }
}

/// Back to the latest step that was at a breakpoint, or to the start.
pub(crate) fn back_to_stop(
    trail: &mut Trail,
    breaks: &[Addr],
    text: &mut Text,
) -> Result<Ending, DebugError>
    ensures told { MovesBy (back_to_stop breaks.now trail.old.trace) result trail.new.trace text.old text.new }
    ensures apart { TellsApart trail.old.trace result trail.new.trace }
{
    match stop_below(breaks, trail) {
        None => go_to_start(trail, text),
        Some(stop) => go_to_stop(trail, &stop, text),
    }
}
