//! The command `joint`: what all harts did in the intervals that a log keeps.
ghost use Rattle.std.specs.Prelude.{◌≡◌, ◌++◌, []};
ghost use Rattle.joint_replay.specs.Texts.{known_text, memory_text};
ghost use Rattle.log_commands.specs.Answering.{Answers};
ghost use Rattle.log_commands.specs.Commands.{IsByLog};
ghost use Rattle.log_commands.specs.Effects.{PrintsTo};
ghost use Rattle.log_commands.specs.Joined.{joint_with};
ghost use Rattle.log_commands.specs.JointEnds.{told_of_joint, SendsSteps, SendsJoint};
ghost use Rattle.log_commands.specs.Outside.{IsPrinted, Sends, Gathers, Always};
ghost use Rattle.log_commands.specs.Pairs.{pair_of};

use crate::answer::Answer;
use crate::pairs::{JointReading, read_pair};
use crate::refusal::Refusal;
use crate::send::{send, send_block, send_short};
use bn_outside::Sink;
use joint_replay::laws::{runs_end, runs_go_on};
use joint_replay::{Joint, write_known};
use rv_text::{RowLines, Text};
use std::alloc::Global;

/// The joint replay of a log file with its program file, before its first step.
pub fn evaluate(alloc: Global, log: &[u8], elf: &[u8]) -> Result<Answer, Refusal>
    ensures { Answers IsPrinted (λ names. IsByLog names log.now (pair_of (joint_with names) names elf.now)) result }
{
    let pair = read_pair(alloc, log, elf)?;
    Ok(Answer::Joined(pair))
}

// Sends the lines of all steps, in blocks; at first none waits. It is refused if the run stopped.
fn send_run<O: Sink>(
    joint: &mut Joint,
    lines: &mut RowLines,
    text: &mut Text,
    out: &mut O,
) -> Result<(), Refusal>
    requires { text.old ≡ [] }
    ensures { SendsSteps joint.old joint.new (O.stream out.old) (O.stream out.new) result }
{
    // Laws:
    runs_go_on();
    runs_end();
    'steps: loop {
        match joint.advance(lines, text) {
            Ok(true) => send_block(text, out)?,
            Ok(false) => return send(out, text),
            Err(error) => {
                send(out, text)?;
                return Err(Refusal::of_joint(error));
            }
        }
    }
}

fn send_steps<O: Sink>(alloc: Global, joint: &mut Joint, out: &mut O) -> Result<(), Refusal>
    ensures { SendsSteps joint.old joint.new (O.stream out.old) (O.stream out.new) result }
{
    let mut text = Text::new(alloc);
    let mut lines = RowLines::new(alloc);
    send_run(joint, &mut lines, &mut text, out)
}

// Puts the line of a known word after what waits.
fn gather_word<O: Sink>(text: &mut Text, addr: u32, word: u32, out: &mut O) -> Result<(), Refusal>
    ensures { Gathers (text.old ++ known_text (addr, word)) text.new (O.stream out.old) (O.stream out.new) result }
{
    match write_known(addr, word, text) {
        Ok(()) => send_block(text, out),
        Err(_) => send_short(text, out),
    }
}

// Sends the lines of the known words, in blocks.
fn send_words<O: Sink>(alloc: Global, joint: &Joint, out: &mut O) -> Result<(), Refusal>
    ensures { Sends (memory_text joint.now.memory) Always (O.stream out.old) (O.stream out.new) result }
{
    let mut text = Text::new(alloc);
    let mut from: u64 = 0;
    'words: loop {
        match joint.known_from(from) {
            None => return send(out, &text),
            Some((addr, word)) => {
                gather_word(&mut text, addr, word, out)?;
                from = u64::from(addr) + 4;
            }
        }
    }
}

// Sends all that a joint replay prints: the lines of its steps, and then the known words.
fn send_joint<O: Sink>(alloc: Global, joint: &mut Joint, out: &mut O) -> Result<(), Refusal>
    ensures { SendsJoint joint.old joint.new (O.stream out.old) (O.stream out.new) result }
{
    send_steps(alloc, joint, out)?;
    send_words(alloc, joint, out)
}

/// Prints the joint replay of a log. It is refused if the replay stopped.
pub fn print_joint<O: Sink>(
    alloc: Global,
    reading: &JointReading,
    out: &mut O,
) -> Result<(), Refusal>
    ensures { PrintsTo (λ names. told_of_joint names reading.now) (O.stream out.old) (O.stream out.new) result }
{
    match Joint::begin(alloc, &reading.image, &reading.log) {
        Err(_) => Err(Refusal::OutOfMemory),
        Ok(mut joint) => send_joint(alloc, &mut joint, out),
    }
}
