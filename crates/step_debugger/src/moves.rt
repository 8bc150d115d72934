//! Steps forward, as commands take them, up to a breakpoint.
ghost use Rattle.std.specs.Prelude.{◌≡◌, ◌<◌, true, false, length, Some, None, MatchOption, IfOk};
ghost use Rattle.joint_replay.specs.declared.kinds.Readiness.TheVariants.{Ready};
ghost use Rattle.joint_replay.specs.declared.kinds.Next.TheVariants.{Hart};
ghost use Rattle.step_debugger.specs.Common.{readiness, choice, state_at};
ghost use Rattle.step_debugger.specs.Answers.{pc_at, is_set, stop_at, stop_unless};
ghost use Rattle.step_debugger.specs.Goings.{refused_by, StepsOnce, GoesOnce, StepsApart};

use crate::error::DebugError;
use crate::session::Ending;
use crate::texts::{push_stop, push_waits};
use back_step::Trail;
use bn_base::{Addr, HartId, HartState, Ic};
use joint_replay::{Coming, Joint, JointError, Next, Readiness, write_step};
use rv_text::Text;

/// Whether a hart can take its next step; one that isn't there is done.
pub(crate) fn ready(joint: &Joint, hart: HartId) -> Readiness
    ensures { result ≡ readiness joint.now hart }
{
    if hart < joint.harts() {
        joint.ready(hart)
    } else {
        Readiness::Done
    }
}

/// The state of a hart, if an interval of it is under way.
pub(crate) fn state<'a>(joint: &'a Joint, hart: HartId) -> Option<&'a HartState>
    ensures { MatchOption result (state_at joint.now hart ≡ None) (λ s. state_at joint.now hart ≡ Some s.now) }
{
    if hart < joint.harts() {
        joint.state(hart)
    } else {
        None
    }
}

/// The pc of a hart, if an interval of it is under way.
pub(crate) fn pc_at(joint: &Joint, hart: HartId) -> Option<Addr>
    ensures { result ≡ pc_at joint.now hart }
{
    match state(joint, hart) {
        None => None,
        Some(state) => Some(state.pc),
    }
}

// How the refusal of a step is told; out of memory is none.
fn refused_by(error: JointError) -> Result<Ending, DebugError>
    ensures { result ≡ refused_by error }
{
    match error {
        JointError::Replay(refusal) => Ok(Ending::Refused(JointError::Replay(refusal))),
        JointError::Stuck { positions } => Ok(Ending::Refused(JointError::Stuck { positions })),
        JointError::OutOfMemory => Err(DebugError::OutOfMemory),
    }
}

// Takes a step of a hart that is ready, and tells it.
fn step_told(trail: &mut Trail, hart: HartId, text: &mut Text) -> Result<Option<Ending>, DebugError>
    requires { readiness trail.old.trace.now hart ≡ Ready }
    ensures told { StepsOnce trail.old.trace hart result trail.new.trace text.old text.new }
    ensures apart { StepsApart trail.old.trace result trail.new.trace }
{
    match trail.step(hart) {
        Ok(stepped) => match write_step(&stepped, text) {
            Ok(()) => Ok(None),
            Err(_) => Err(DebugError::OutOfMemory),
        },
        Err(error) => match refused_by(error) {
            Ok(ending) => Ok(Some(ending)),
            Err(error) => Err(error),
        },
    }
}

/// One more step of a hart: it is told. If the hart isn't ready, the steps end there, and it is told
/// what the hart waits for.
pub(crate) fn step_once(
    trail: &mut Trail,
    hart: HartId,
    text: &mut Text,
) -> Result<Option<Ending>, DebugError>
    ensures told { StepsOnce trail.old.trace hart result trail.new.trace text.old text.new }
    ensures apart { StepsApart trail.old.trace result trail.new.trace }
{
    match ready(trail.joint(), hart) {
        Readiness::Ready => step_told(trail, hart, text),
        Readiness::Waits { hart: source, ic } => match push_waits(text, source, ic) {
            Ok(()) => Ok(Some(Ending::GoesOn)),
            Err(_) => Err(DebugError::OutOfMemory),
        },
        Readiness::Done => match text.push_str("done\n") {
            Ok(()) => Ok(Some(Ending::GoesOn)),
            Err(_) => Err(DebugError::OutOfMemory),
        },
    }
}

// The address, if a breakpoint is there, with a count.
fn stop_with(breaks: &[Addr], ic: Ic, pc: Addr) -> Option<(Ic, Addr)>
    ensures { result ≡ elim (is_set breaks.now pc) [ true ↦ Some (ic, pc) | false ↦ None ] }
{
    if breaks.contains(&pc) {
        Some((ic, pc))
    } else {
        None
    }
}

// The count and the pc of a hart's next row, if that is at a breakpoint. If none is set, nothing
// else is asked.
fn stop_at(breaks: &[Addr], joint: &Joint, hart: HartId) -> Option<(Ic, Addr)>
    requires { hart < length joint.now.lanes }
    ensures { result ≡ stop_at breaks.now joint.now hart }
{
    if breaks.is_empty() {
        return None;
    }
    match joint.coming(hart) {
        None => None,
        Some(coming) => match coming {
            Coming::PassAt { .. } => None,
            Coming::RowAt { ic } => match joint.state(hart) {
                None => None,
                Some(state) => stop_with(breaks, ic, state.pc),
            },
            Coming::EndAt { .. } => None,
        },
    }
}

// The same, but nothing for the first step.
fn stop_unless(first: bool, breaks: &[Addr], joint: &Joint, hart: HartId) -> Option<(Ic, Addr)>
    requires { hart < length joint.now.lanes }
    ensures { result ≡ stop_unless first breaks.now joint.now hart }
{
    if first {
        None
    } else {
        stop_at(breaks, joint, hart)
    }
}

// One more step of the lowest ready hart, or the stop before it.
fn go_past(
    trail: &mut Trail,
    hart: HartId,
    first: bool,
    breaks: &[Addr],
    text: &mut Text,
) -> Result<Option<Ending>, DebugError>
    requires { choice trail.old.trace.now ≡ Hart hart }
    ensures told { GoesOnce first breaks.now trail.old.trace result trail.new.trace text.old text.new }
    ensures apart { StepsApart trail.old.trace result trail.new.trace }
{
    match stop_unless(first, breaks, trail.joint(), hart) {
        Some(at) => match push_stop(text, hart, at.0, at.1) {
            Ok(()) => Ok(Some(Ending::GoesOn)),
            Err(_) => Err(DebugError::OutOfMemory),
        },
        None => match trail.step(hart) {
            Ok(_) => Ok(None),
            Err(error) => match refused_by(error) {
                Ok(ending) => Ok(Some(ending)),
                Err(error) => Err(error),
            },
        },
    }
}

/// One more step of the lowest ready hart, which isn't told; or how the steps end.
pub(crate) fn go_once(
    trail: &mut Trail,
    first: bool,
    breaks: &[Addr],
    text: &mut Text,
) -> Result<Option<Ending>, DebugError>
    ensures told { GoesOnce first breaks.now trail.old.trace result trail.new.trace text.old text.new }
    ensures apart { StepsApart trail.old.trace result trail.new.trace }
{
    match trail.joint().next() {
        Next::AllDone => match text.push_str("done\n") {
            Ok(()) => Ok(Some(Ending::GoesOn)),
            Err(_) => Err(DebugError::OutOfMemory),
        },
        Next::NoneReady => match trail.joint().positions() {
            Ok(positions) => Ok(Some(Ending::Refused(JointError::Stuck { positions }))),
            Err(_) => Err(DebugError::OutOfMemory),
        },
        Next::Hart(hart) => go_past(trail, hart, first, breaks, text),
    }
}
