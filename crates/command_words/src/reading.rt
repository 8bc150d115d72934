//! `read_words`: from the words of a command line to what it asks for.
ghost use Rattle.std.specs.Prelude.{◌≡◌, ◌≢◌, ◌↔◌, IfErr, IfOk, Some, None, Err, option_map};
ghost use Rattle.clap.specs.Words.{kind_of, subcommand_rows_of};
ghost use Rattle.clap.specs.declared.error.kind.ErrorKind.TheVariants as kind;
ghost use Rattle.command_words.specs.Words.{command_in, line_in, seen};

use crate::commands::Command;
use crate::definition::bugnet_command;
use crate::error::WordsError;
use crate::found::named;
use clap::error::ErrorKind;
use clap::{ArgMatches, Error};
use std::alloc::Global;

fn matched<'a>(matches: &ArgMatches<'a>) -> Option<Command<'a>>
    ensures { option_map seen result ≡ line_in (subcommand_rows_of matches.now) }
{
    match matches.subcommand() {
        None => None,
        Some((name, found)) => named(name, found),
    }
}

// What the matches of a line ask for.
fn asked_by<'a>(matches: &ArgMatches<'a>) -> Result<Command<'a>, WordsError>
    ensures taken { IfOk result (λ c. line_in (subcommand_rows_of matches.now) ≡ Some (seen c)) }
    ensures refused { IfErr result (λ e. (e ≡ WordsError.Refused) × (line_in (subcommand_rows_of matches.now) ≡ None)) }
{
    match matched(matches) {
        Some(asked) => Ok(asked),
        None => Err(WordsError::Refused),
    }
}

// Why a line has no matches.
fn refusal_by(error: &Error) -> WordsError
    ensures { result ≡ WordsError.Refused ↔ kind_of error.now ≢ kind.OutOfMemory }
{
    match error.kind() {
        ErrorKind::OutOfMemory => WordsError::OutOfMemory,
        _ => WordsError::Refused,
    }
}

/// The command that words ask for, of which the first is the program's own name.
///
/// Exactly these lines are taken, as clap takes them (options stand anywhere after the command's
/// name, `--harts=2` is `--harts 2`, and after `--` all words are names):
///
/// ```text
/// record [--harts N] [--interval N] [--limit N] [--log-size N] [--memory N] [--sets N]
///        [--ways N] [--line N] [--format N] [--sets2 N] [--ways2 N] [--seed N] [--lean]
///        [--input FILE] ELF LOG BOOK
/// replay LOG ELF HART INTERVAL
/// joint LOG ELF
/// debug LOG ELF
/// list LOG
/// check LOG
/// audit LOG ELF BOOK [--input FILE]
/// races LOG ELF MAX
/// slice LOG ELF HART INTERVAL IC
/// convert LOG NEW
/// salvage LOG NEW
/// demo SEED
/// ```
///
/// Each number is in decimal digits, below 2^64, maybe with a `+` and leading zeros; MAX is from 1 to
/// 1,000,000. An option that is given twice is refused. Whether settings are in their ranges, and names differ, isn't tested.
pub fn read_words<'a>(alloc: Global, words: &'a [String]) -> Result<Command<'a>, WordsError>
    ensures taken { IfOk result (λ c. command_in words.now ≡ Some (seen c)) }
    ensures refused { result ≡ Err WordsError.Refused → command_in words.now ≡ None }
{
    let command = bugnet_command(alloc)?;
    match command.try_get_matches_from(words) {
        Ok(matches) => asked_by(&matches),
        Err(error) => Err(refusal_by(&error)),
    }
}
