//! What the words of a command say before a file is loaded: the names of its files, which of them it loads, and a refusal.
ghost use Rattle.std.specs.Prelude.{◌≡◌, Some};
ghost use Rattle.bugnet.specs.Common.{seen, bytes_eq, name_refusal};
ghost use Rattle.bugnet.specs.Answers.{names_in, refusal_in, line_roles};
ghost use Rattle.bugnet.specs.Laws.{IsNoRecording};

use command_words::Command;
use log_commands::commands::audit;
use log_commands::names::{Names, Role};
use log_commands::refusal::Refusal;

/// The names of the files of a command.
pub fn names_of<'a>(command: &Command<'a>) -> Names<'a>
    ensures { result ≡ names_in (seen command.now) }
{
    match *command {
        Command::Record(recording) => Names {
            elf: recording.elf,
            log: recording.log,
            book: recording.book,
            input: recording.input.unwrap_or(""),
            origin: "",
        },
        Command::Replay { log, elf, .. } => Names::of_pair(log, elf),
        Command::Joint { log, elf } => Names::of_pair(log, elf),
        Command::Debug { log, elf } => Names::of_pair(log, elf),
        Command::List { log } => Names::of_log(log),
        Command::Check { log } => Names::of_log(log),
        Command::Audit {
            log,
            elf,
            book,
            input,
        } => Names {
            elf,
            log,
            book,
            input: input.unwrap_or(""),
            origin: "",
        },
        Command::Races { log, elf, .. } => Names::of_pair(log, elf),
        Command::Slice { log, elf, .. } => Names::of_pair(log, elf),
        Command::Convert { log, new } => Names::of_new(log, new),
        Command::Salvage { log, new } => Names::of_new(log, new),
        Command::Demo { .. } => Names::none(),
    }
}

// Refuses a NEW that has the name of LOG.
fn name_refusal(log: &str, new: &str) -> Option<Refusal>
    ensures { result ≡ name_refusal (bytes_eq log.now new.now) }
{
    if log == new {
        Some(Refusal::SameName)
    } else {
        None
    }
}

/// What the words alone refuse, of a command that records nothing.
pub fn refusal_of(command: &Command) -> Option<Refusal>
    requires { IsNoRecording (Some (seen command.now)) }
    ensures { result ≡ refusal_in (seen command.now) }
{
    match command {
        Command::Record(_) => unreachable!(),
        Command::Convert { log, new } => name_refusal(log, new),
        Command::Salvage { log, new } => name_refusal(log, new),
        _ => None,
    }
}

const NOTHING: &[Role] = &[];

const LOG: &[Role] = &[Role::Log];

const PAIR: &[Role] = &[Role::Log, Role::Elf];

const ORIGIN: &[Role] = &[Role::Origin];

/// What a command that records nothing loads, in this order.
pub fn roles_of(command: &Command) -> &'static [Role]
    requires { IsNoRecording (Some (seen command.now)) }
    ensures { result.now ≡ line_roles (seen command.now) }
{
    match command {
        Command::Record(_) => unreachable!(),
        Command::Replay { .. } => PAIR,
        Command::Joint { .. } => PAIR,
        Command::Debug { .. } => PAIR,
        Command::List { .. } => LOG,
        Command::Check { .. } => LOG,
        Command::Audit { input, .. } => audit::roles_of(input.is_some()),
        Command::Races { .. } => PAIR,
        Command::Slice { .. } => PAIR,
        Command::Convert { .. } => ORIGIN,
        Command::Salvage { .. } => ORIGIN,
        Command::Demo { .. } => NOTHING,
    }
}
