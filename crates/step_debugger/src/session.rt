//! A session of the debugger: what each command does. A new command's work goes here.
ghost use Rattle.std.specs.Prelude.{◌≡◌, ◌≤◌, ◌<◌, ◌++◌, ◌==◌, not, length, OnOk};
ghost use Rattle.step_debugger.specs.Common.{filter, state_at};
ghost use Rattle.step_debugger.specs.Answers.{is_set, registers_text, hart_place, places_from, choose, add_break, take_break};
ghost use Rattle.step_debugger.specs.Goings.{session_of, Says, Goes, TellsSteps, Performs, IsAnswered, TellsApart, done_by};

use crate::command::DebugCommand;
use crate::error::DebugError;
use crate::focus::Focus;
use crate::moves::{go_once, pc_at, ready, state, step_once};
use crate::parse::command_of;
use crate::returns::{back, back_to_stop};
use crate::sending::{send, send_block};
use crate::texts::{push_address, push_half, push_hart, push_hart_done, push_place, push_word};
use back_step::Trail;
use bn_base::{Addr, HartId};
use bn_outside::Sink;
use joint_replay::{Joint, JointError};
use rv_text::Text;
use std::alloc::AllocError;

/// Whether a session continues after a command.
#[derive(Drop)]
pub enum Ending {
    GoesOn,
    /// The command ended it.
    Quits,
    /// The joint replay is refused.
    Refused(JointError),
}

// ---- the chosen hart and the breakpoints

// Chooses a hart.
fn choose(trail: &Trail, focus: &mut Focus, number: u32, text: &mut Text) -> Result<(), AllocError>
    ensures { OnOk result (Says (choose (session_of trail.now.trace focus.old) number) trail.now.trace focus.new text.old text.new) }
{
    if number < u32::from(trail.joint().harts()) {
        focus.hart = number as u8;
        push_hart(text, focus.hart)
    } else {
        text.push_str("?\n")
    }
}

// Whether a breakpoint is at an address.
fn is_set(focus: &Focus, addr: Addr) -> bool
    ensures { result ≡ is_set focus.now.breaks.items addr }
{
    focus.breaks.contains(&addr)
}

// Adds a breakpoint, and says so. One that is set is set again; a 65th isn't set, and the text says `full`.
fn add_break(
    trail: &Trail,
    focus: &mut Focus,
    addr: Addr,
    text: &mut Text,
) -> Result<(), AllocError>
    ensures { OnOk result (Says (add_break (session_of trail.now.trace focus.old) addr) trail.now.trace focus.new text.old text.new) }
{
    if is_set(focus, addr) {
        push_address(text, "break ", addr)
    } else if focus.breaks.len() < 64 {
        focus.breaks.push(addr)?;
        push_address(text, "break ", addr)
    } else {
        text.push_str("full\n")
    }
}

// Takes all of an address out of some.
fn take_out(breaks: &mut Vec<Addr>, addr: Addr)
    ensures { breaks.new.items ≡ filter (λ b. not (b == addr)) breaks.old.items }
{
    breaks.retain(|set| *set != addr);
}

// Takes out a breakpoint.
fn take_break(
    trail: &Trail,
    focus: &mut Focus,
    addr: Addr,
    text: &mut Text,
) -> Result<(), AllocError>
    ensures { OnOk result (Says (take_break (session_of trail.now.trace focus.old) addr) trail.now.trace focus.new text.old text.new) }
{
    if is_set(focus, addr) {
        take_out(&mut focus.breaks, addr);
        push_address(text, "unbreak ", addr)
    } else {
        text.push_str("none\n")
    }
}

// ---- what is shown

// The registers of a hart.
fn push_registers(joint: &Joint, hart: HartId, text: &mut Text) -> Result<(), AllocError>
    ensures { OnOk result (text.new ≡ text.old ++ registers_text (state_at joint.now hart)) }
{
    match state(joint, hart) {
        None => text.push_str("no state\n"),
        Some(state) => {
            push_half(text, &state.x, 0)?;
            push_half(text, &state.x, 16)
        }
    }
}

// The line of a hart: its count and pc, and what it waits for.
fn push_hart_place(joint: &Joint, hart: HartId, text: &mut Text) -> Result<(), AllocError>
    requires { hart < length joint.now.lanes }
    ensures { OnOk result (text.new ≡ text.old ++ hart_place joint.now hart) }
{
    match joint.coming(hart) {
        None => push_hart_done(text, hart),
        Some(coming) => push_place(
            text,
            hart,
            coming.ic(),
            pc_at(joint, hart),
            ready(joint, hart),
        ),
    }
}

// The lines of all harts.
fn push_places(joint: &Joint, text: &mut Text) -> Result<(), AllocError>
    ensures { OnOk result (text.new ≡ text.old ++ places_from joint.now 0 (length joint.now.lanes)) }
{
    for hart in 0..joint.harts() {
        push_hart_place(joint, hart, text)?;
    }
    Ok(())
}

// ---- steps

// A hart steps up to so many times.
fn step_up_to<O: Sink>(
    trail: &mut Trail,
    hart: HartId,
    count: u32,
    text: &mut Text,
    out: &mut O,
) -> Result<Ending, DebugError>
    ensures sent { TellsSteps hart count trail.old.trace trail.new.trace text.old text.new (O.stream out.old) (O.stream out.new) result }
    ensures apart { TellsApart trail.old.trace result trail.new.trace }
    ensures later { (O.stream out.old).faults ≤ (O.stream out.new).faults }
{
    for done in 0..count {
        match step_once(trail, hart, text) {
            Err(error) => return Err(error),
            Ok(Some(ending)) => return Ok(ending),
            Ok(None) => match send_block(text, out) {
                Ok(()) => (),
                Err(error) => return Err(error),
            },
        }
    }
    Ok(Ending::GoesOn)
}

// All harts step, the lowest ready one first, up to a breakpoint.
fn go(trail: &mut Trail, breaks: &[Addr], text: &mut Text) -> Result<Ending, DebugError>
    ensures told { Goes breaks.now trail.old.trace result trail.new.trace text.old text.new }
    ensures apart { TellsApart trail.old.trace result trail.new.trace }
{
    let mut first = true;
    'steps: loop {
        match go_once(trail, first, breaks, text) {
            Err(error) => return Err(error),
            Ok(Some(ending)) => return Ok(ending),
            Ok(None) => first = false,
        }
    }
}

// ---- all commands

// How a command ends whose answer is told.
fn done(written: Result<(), AllocError>) -> Result<Ending, DebugError>
    ensures { result ≡ done_by written }
{
    match written {
        Ok(()) => Ok(Ending::GoesOn),
        Err(_) => Err(DebugError::OutOfMemory),
    }
}

// Does a command. Its answer is appended to what waits of the text.
fn perform<O: Sink>(
    trail: &mut Trail,
    focus: &mut Focus,
    command: DebugCommand,
    text: &mut Text,
    out: &mut O,
) -> Result<Ending, DebugError>
    ensures sent { Performs command (session_of trail.old.trace focus.old) (session_of trail.new.trace focus.new) text.old text.new (O.stream out.old) (O.stream out.new) result }
    ensures apart { TellsApart trail.old.trace result trail.new.trace }
    ensures later { (O.stream out.old).faults ≤ (O.stream out.new).faults }
{
    match command {
        DebugCommand::Empty => Ok(Ending::GoesOn),
        DebugCommand::Hart(number) => done(choose(trail, focus, number, text)),
        DebugCommand::Step(count) => step_up_to(trail, focus.hart, count, text, out),
        DebugCommand::Go => go(trail, &focus.breaks, text),
        DebugCommand::Back(count) => back(trail, count, text),
        DebugCommand::ReverseGo => back_to_stop(trail, &focus.breaks, text),
        DebugCommand::Break(addr) => done(add_break(trail, focus, addr, text)),
        DebugCommand::Unbreak(addr) => done(take_break(trail, focus, addr, text)),
        DebugCommand::Registers => done(push_registers(trail.joint(), focus.hart, text)),
        DebugCommand::Word(addr) => done(push_word(text, addr, trail.joint().word(addr))),
        DebugCommand::Where => done(push_places(trail.joint(), text)),
        DebugCommand::Quit => Ok(Ending::Quits),
        DebugCommand::Other => done(text.push_str("?\n")),
    }
}

/// Does the command that a line is, and sends its answer.
pub(crate) fn answer<O: Sink>(
    trail: &mut Trail,
    focus: &mut Focus,
    line: &[u8],
    text: &mut Text,
    out: &mut O,
) -> Result<Ending, DebugError>
    ensures sent { IsAnswered line.now (session_of trail.old.trace focus.old) (session_of trail.new.trace focus.new) (O.stream out.old) (O.stream out.new) result }
    ensures apart { TellsApart trail.old.trace result trail.new.trace }
    ensures later { (O.stream out.old).faults ≤ (O.stream out.new).faults }
{
    text.clear();
    match perform(trail, focus, command_of(line), text, out) {
        Err(error) => Err(error),
        Ok(ending) => match send(text, out) {
            Ok(()) => Ok(ending),
            Err(error) => Err(error),
        },
    }
}
