//! What a command that records nothing answers by its files. `debug`, which reads commands meanwhile, has a file of its own.
ghost use Rattle.std.specs.Prelude.{◌≡◌, Option, Some, None};
ghost use Rattle.bugnet.specs.Common.{Schedule, seen, Answers, bytes_of, FileNames, call};
ghost use Rattle.bugnet.specs.Answers.{names_in, refusal_in, IsOn, KindOf};
ghost use Rattle.bugnet.specs.LineAnswers.{AnswersLine};
ghost use Rattle.bugnet.specs.Replies.{RepliesTo};
ghost use Rattle.bugnet.specs.LineCalls.{AnswersDemo};
ghost use Rattle.bugnet.specs.Laws.{IsNoSession, IsNoRecording};

use crate::command_files::{refusal_of, roles_of};
use crate::commands::demo;
use bn_outside::{Sink, Store};
use command_words::Command;
use log_commands::acting::act;
use log_commands::answer::Answer;
use log_commands::commands::{audit, check, convert, joint, list, races, replay, salvage, slice};
use log_commands::inputs::{Inputs, load_inputs};
use log_commands::names::Names;
use log_commands::refusal::Refusal;
use log_commands::status::Status;
use std::alloc::Global;

// What a command answers by the bytes that were loaded for it, if it records nothing and reads no commands.
fn evaluate(alloc: Global, command: &Command, inputs: Inputs) -> Result<Answer, Refusal>
    requires no_session { IsNoSession (Some (seen command.now)) }
    requires no_recording { IsNoRecording (Some (seen command.now)) }
    ensures answers { Answers (KindOf (seen command.now)) (λ names. IsOn (seen command.now) names (bytes_of inputs)) result }
    ensures demo { (names : FileNames) → AnswersDemo (seen command.now) names result }
{
    match command {
        Command::Record(_) => unreachable!(),
        Command::Debug { .. } => unreachable!(),
        Command::Replay { hart, interval, .. } => {
            replay::evaluate(alloc, &inputs.log, &inputs.elf, *hart, *interval)
        }
        Command::Joint { .. } => joint::evaluate(alloc, &inputs.log, &inputs.elf),
        Command::List { .. } => list::evaluate(alloc, &inputs.log),
        Command::Check { .. } => check::evaluate(alloc, &inputs.log),
        Command::Audit { .. } => {
            let input = inputs.input;
            audit::evaluate(alloc, &inputs.log, &inputs.elf, &inputs.book, input)
        }
        Command::Races { max, .. } => races::evaluate(alloc, &inputs.log, &inputs.elf, *max),
        Command::Slice {
            hart,
            interval,
            ic,
            ..
        } => slice::evaluate(alloc, &inputs.log, &inputs.elf, *hart, *interval, *ic),
        Command::Convert { .. } => convert::evaluate(alloc, &inputs.origin),
        Command::Salvage { .. } => salvage::evaluate(alloc, &inputs.origin),
        Command::Demo { seed } => demo::evaluate(alloc, *seed),
    }
}

// What a command answers by the files that it loads, once its words are tested.
fn answer_loaded<S: Store>(
    alloc: Global,
    command: &Command,
    names: &Names,
    files: &mut S,
) -> Result<Answer, Refusal>
    requires named { names.now ≡ names_in (seen command.now) }
    requires no_session { IsNoSession (Some (seen command.now)) }
    requires no_recording { IsNoRecording (Some (seen command.now)) }
    requires passes { refusal_in (seen command.now) ≡ None }
    ensures { (schedule : Option Schedule) → AnswersLine schedule (seen command.now) names.now S.note (S.stored files.old) (S.stored files.new) result }
{
    let inputs = load_inputs(alloc, names, roles_of(command), files)?;
    evaluate(alloc, command, inputs)
}

// What a command answers, if it records nothing and reads no commands. Nothing is saved or printed before
// that.
fn answer_to<S: Store>(
    alloc: Global,
    command: &Command,
    names: &Names,
    files: &mut S,
) -> Result<Answer, Refusal>
    requires named { names.now ≡ names_in (seen command.now) }
    requires no_session { IsNoSession (Some (seen command.now)) }
    requires no_recording { IsNoRecording (Some (seen command.now)) }
    ensures { (schedule : Option Schedule) → AnswersLine schedule (seen command.now) names.now S.note (S.stored files.old) (S.stored files.new) result }
{
    match refusal_of(command) {
        Some(refusal) => Err(refusal),
        None => answer_loaded(alloc, command, names, files),
    }
}

/// Finds the answer of a command that records nothing and reads no commands, and saves and prints it.
pub fn reply<S: Store, O: Sink, X: Sink>(
    alloc: Global,
    command: &Command,
    names: &Names,
    files: &mut S,
    out: &mut O,
    err: &mut X,
) -> Result<Status, Refusal>
    requires named { names.now ≡ names_in (seen command.now) }
    requires no_session { IsNoSession (Some (seen command.now)) }
    requires no_recording { IsNoRecording (Some (seen command.now)) }
    ensures { (schedule : Option Schedule) → RepliesTo schedule (seen command.now) names.now S.note (call S.stored O.stream X.stream files.old out.old err.old files.new out.new err.new) result }
{
    let answer = answer_to(alloc, command, names, files)?;
    act(alloc, names, &answer, files, out, err)
}
