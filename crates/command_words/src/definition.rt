//! The definition of the command line for clap. A new command or option begins here.
ghost use Rattle.std.specs.Prelude.{◌≡◌, IfOk, codes};
ghost use Rattle.clap.specs.Words.{App, Rule, app_of, new_app, rule_of, with_rule, with_subcommand};
ghost use Rattle.clap.specs.declared.builder.command.Command.TheViews.{out-Command};
ghost use Rattle.command_words.specs.App.{IsRule, IsSeenAs, number_option, flag, text_option, word, number_word, most_word};
ghost use Rattle.command_words.specs.App.{settings_app, record_app, replay_app, pair_app, log_app, audit_app, races_app, slice_app, new_log_app, demo_app, top_app, bugnet_app};

use clap::builder::ValueParser;
use clap::{Arg, ArgAction, Command};
use std::alloc::{AllocError, Global};

// `--ID TEXT`
fn text_option<'a>(alloc: Global, id: &'a str) -> Arg<'a>
    ensures { IsRule (text_option id.entry.now) result }
{
    Arg::new(alloc, id).long(id).action(ArgAction::Set)
}

// `--ID N`
fn number_option<'a>(alloc: Global, id: &'a str) -> Arg<'a>
    ensures { IsRule (number_option id.entry.now) result }
{
    text_option(alloc, id).value_parser(ValueParser::Unsigned(0, u64::MAX))
}

// `--ID`
fn flag<'a>(alloc: Global, id: &'a str) -> Arg<'a>
    ensures { IsRule (flag id.entry.now) result }
{
    Arg::new(alloc, id).long(id).action(ArgAction::SetTrue)
}

// a word that has to be there
fn word<'a>(alloc: Global, id: &'a str) -> Arg<'a>
    ensures { IsRule (word id.entry.now) result }
{
    Arg::new(alloc, id).action(ArgAction::Set).required(true)
}

// a number that has to be there
fn number_word<'a>(alloc: Global, id: &'a str) -> Arg<'a>
    ensures { IsRule (number_word id.entry.now) result }
{
    word(alloc, id).value_parser(ValueParser::Unsigned(0, u64::MAX))
}

// the most races that are listed, from 1 to 1,000,000, which has to be there
#[tactic(auto, using(crate::proofs::Values::parsed))]
fn most_word<'a>(alloc: Global, id: &'a str) -> Arg<'a>
    ensures { IsRule (most_word id.entry.now) result }
{
    word(alloc, id).value_parser(ValueParser::Unsigned(1, 1_000_000))
}

// a command of this name, without arguments and subcommands
fn named_command<'a>(alloc: Global, name: &'a str) -> Result<Command<'a>, AllocError>
    ensures { IfOk result (IsSeenAs (new_app name.entry.now)) }
{
    Ok(Command::new(alloc, name))
}

// The command with one more argument, if there is a command.
fn add_argument<'a>(
    command: Result<Command<'a>, AllocError>,
    argument: Arg<'a>,
) -> Result<Command<'a>, AllocError>
    ensures { (app : App) (rule : Rule) → IfOk command.entry (IsSeenAs app) → IsRule rule argument.entry → IfOk result (IsSeenAs (with_rule app rule)) }
{
    command?.arg(argument)
}

// The command with one more subcommand, if there are both.
fn add_subcommand<'a>(
    command: Result<Command<'a>, AllocError>,
    subcommand: Result<Command<'a>, AllocError>,
) -> Result<Command<'a>, AllocError>
    ensures { (app sub : App) → IfOk command.entry (IsSeenAs app) → IfOk subcommand.entry (IsSeenAs sub) → IfOk result (IsSeenAs (with_subcommand app sub.top)) }
{
    command?.subcommand(subcommand?)
}

// `record` with the options of its settings alone
fn settings_command<'a>(alloc: Global) -> Result<Command<'a>, AllocError>
    ensures { IfOk result (IsSeenAs settings_app) }
{
    let command = named_command(alloc, "record");
    let command = add_argument(command, number_option(alloc, "harts"));
    let command = add_argument(command, number_option(alloc, "interval"));
    let command = add_argument(command, number_option(alloc, "limit"));
    let command = add_argument(command, number_option(alloc, "log-size"));
    let command = add_argument(command, number_option(alloc, "memory"));
    let command = add_argument(command, number_option(alloc, "sets"));
    let command = add_argument(command, number_option(alloc, "ways"));
    let command = add_argument(command, number_option(alloc, "line"));
    let command = add_argument(command, number_option(alloc, "format"));
    let command = add_argument(command, number_option(alloc, "sets2"));
    add_argument(command, number_option(alloc, "ways2"))
}

// `record [OPTIONS] [--seed N] [--lean] [--input FILE] ELF LOG BOOK`
fn record_command<'a>(alloc: Global) -> Result<Command<'a>, AllocError>
    ensures { IfOk result (IsSeenAs record_app) }
{
    let command = settings_command(alloc);
    let command = add_argument(command, number_option(alloc, "seed"));
    let command = add_argument(command, flag(alloc, "lean"));
    let command = add_argument(command, text_option(alloc, "input"));
    let command = add_argument(command, word(alloc, "elf"));
    let command = add_argument(command, word(alloc, "log"));
    add_argument(command, word(alloc, "book"))
}

// `replay LOG ELF HART INTERVAL`
fn replay_command<'a>(alloc: Global) -> Result<Command<'a>, AllocError>
    ensures { IfOk result (IsSeenAs replay_app) }
{
    let command = pair_command(alloc, "replay");
    let command = add_argument(command, number_word(alloc, "hart"));
    add_argument(command, number_word(alloc, "interval"))
}

// `NAME LOG ELF`
fn pair_command<'a>(alloc: Global, name: &'a str) -> Result<Command<'a>, AllocError>
    ensures { IfOk result (IsSeenAs (pair_app name.entry.now)) }
{
    add_argument(log_command(alloc, name), word(alloc, "elf"))
}

// `NAME LOG`
fn log_command<'a>(alloc: Global, name: &'a str) -> Result<Command<'a>, AllocError>
    ensures { IfOk result (IsSeenAs (log_app name.entry.now)) }
{
    add_argument(named_command(alloc, name), word(alloc, "log"))
}

// `audit LOG ELF BOOK [--input FILE]`
fn audit_command<'a>(alloc: Global) -> Result<Command<'a>, AllocError>
    ensures { IfOk result (IsSeenAs audit_app) }
{
    let command = named_command(alloc, "audit");
    let command = add_argument(command, text_option(alloc, "input"));
    let command = add_argument(command, word(alloc, "log"));
    let command = add_argument(command, word(alloc, "elf"));
    add_argument(command, word(alloc, "book"))
}

// `races LOG ELF MAX`
fn races_command<'a>(alloc: Global) -> Result<Command<'a>, AllocError>
    ensures { IfOk result (IsSeenAs races_app) }
{
    add_argument(pair_command(alloc, "races"), most_word(alloc, "max"))
}

// `slice LOG ELF HART INTERVAL IC`
fn slice_command<'a>(alloc: Global) -> Result<Command<'a>, AllocError>
    ensures { IfOk result (IsSeenAs slice_app) }
{
    let command = pair_command(alloc, "slice");
    let command = add_argument(command, number_word(alloc, "hart"));
    let command = add_argument(command, number_word(alloc, "interval"));
    add_argument(command, number_word(alloc, "ic"))
}

// `NAME LOG NEW`
fn new_log_command<'a>(alloc: Global, name: &'a str) -> Result<Command<'a>, AllocError>
    ensures { IfOk result (IsSeenAs (new_log_app name.entry.now)) }
{
    add_argument(log_command(alloc, name), word(alloc, "new"))
}

// `demo SEED`
fn demo_command<'a>(alloc: Global) -> Result<Command<'a>, AllocError>
    ensures { IfOk result (IsSeenAs demo_app) }
{
    add_argument(named_command(alloc, "demo"), number_word(alloc, "seed"))
}

// the whole command before its subcommands
fn top_command<'a>(alloc: Global) -> Result<Command<'a>, AllocError>
    ensures { IfOk result (IsSeenAs top_app) }
{
    Ok(Command::new(alloc, "bugnet").subcommand_required(true))
}

// The whole command, of which each line names one subcommand.
pub fn bugnet_command<'a>(alloc: Global) -> Result<Command<'a>, AllocError>
    ensures { IfOk result (IsSeenAs bugnet_app) }
{
    let command = top_command(alloc);
    let command = add_subcommand(command, record_command(alloc));
    let command = add_subcommand(command, replay_command(alloc));
    let command = add_subcommand(command, pair_command(alloc, "joint"));
    let command = add_subcommand(command, pair_command(alloc, "debug"));
    let command = add_subcommand(command, log_command(alloc, "list"));
    let command = add_subcommand(command, log_command(alloc, "check"));
    let command = add_subcommand(command, audit_command(alloc));
    let command = add_subcommand(command, races_command(alloc));
    let command = add_subcommand(command, slice_command(alloc));
    let command = add_subcommand(command, new_log_command(alloc, "convert"));
    let command = add_subcommand(command, new_log_command(alloc, "salvage"));
    add_subcommand(command, demo_command(alloc))
}
