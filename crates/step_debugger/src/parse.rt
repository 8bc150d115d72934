//! Parsing: which line is which command. `specs/Commands.antt` pins it.
ghost use Rattle.std.specs.Prelude.{◌≡◌, Some, None, MatchOption};
ghost use Rattle.std.specs.Str.{bytes_eq};
ghost use Rattle.step_debugger.specs.Commands.{behind, decimal_in, address_in, hart_of, step_of, back_of, break_of, unbreak_of, word_of, numbered, command_of};

use crate::command::DebugCommand;
use crate::numbers::number_of;
use bn_base::Addr;

fn is_same(one: &[u8], other: &[u8]) -> bool
    ensures { result ≡ bytes_eq one.now other.now }
{
    one == other
}

// The rest of a line that begins with a word.
fn behind<'a>(word: &[u8], line: &'a [u8]) -> Option<&'a [u8]>
    ensures { MatchOption result (behind word.now line.now ≡ None) (λ rest. behind word.now line.now ≡ Some rest.now) }
{
    line.strip_prefix(word)
}

fn decimal_in(text: &[u8]) -> Option<u32>
    ensures { result ≡ decimal_in text.now }
{
    number_of(10, 7, text)
}

fn address_in(text: &[u8]) -> Option<Addr>
    ensures { result ≡ address_in text.now }
{
    match behind(b"0x", text) {
        None => number_of(16, 8, text),
        Some(digits) => number_of(16, 8, digits),
    }
}

fn hart_of(number: Option<u32>) -> DebugCommand
    ensures { result ≡ hart_of number }
{
    match number {
        None => DebugCommand::Other,
        Some(hart) => DebugCommand::Hart(hart),
    }
}

fn step_of(number: Option<u32>) -> DebugCommand
    ensures { result ≡ step_of number }
{
    match number {
        None => DebugCommand::Other,
        Some(count) => {
            if 0 < count && count <= 1_000_000 {
                DebugCommand::Step(count)
            } else {
                DebugCommand::Other
            }
        }
    }
}

fn back_of(number: Option<u32>) -> DebugCommand
    ensures { result ≡ back_of number }
{
    match number {
        None => DebugCommand::Other,
        Some(count) => {
            if 0 < count && count <= 1_000_000 {
                DebugCommand::Back(count)
            } else {
                DebugCommand::Other
            }
        }
    }
}

fn break_of(number: Option<Addr>) -> DebugCommand
    ensures { result ≡ break_of number }
{
    match number {
        None => DebugCommand::Other,
        Some(addr) => DebugCommand::Break(addr),
    }
}

fn unbreak_of(number: Option<Addr>) -> DebugCommand
    ensures { result ≡ unbreak_of number }
{
    match number {
        None => DebugCommand::Other,
        Some(addr) => DebugCommand::Unbreak(addr),
    }
}

fn word_of(number: Option<Addr>) -> DebugCommand
    ensures { result ≡ word_of number }
{
    match number {
        None => DebugCommand::Other,
        Some(addr) => {
            if addr % 4 == 0 {
                DebugCommand::Word(addr)
            } else {
                DebugCommand::Other
            }
        }
    }
}

// A command with a number.
fn numbered(line: &[u8]) -> DebugCommand
    ensures { result ≡ numbered line.now }
{
    match behind(b"hart ", line) {
        Some(text) => hart_of(decimal_in(text)),
        None => match behind(b"step ", line) {
            Some(text) => step_of(decimal_in(text)),
            None => match behind(b"break ", line) {
                Some(text) => break_of(address_in(text)),
                None => match behind(b"unbreak ", line) {
                    Some(text) => unbreak_of(address_in(text)),
                    None => match behind(b"word ", line) {
                        Some(text) => word_of(address_in(text)),
                        None => match behind(b"back ", line) {
                            Some(text) => back_of(decimal_in(text)),
                            None => DebugCommand::Other,
                        },
                    },
                },
            },
        },
    }
}

/// The command that a line is, which is given without its LF.
pub(crate) fn command_of(line: &[u8]) -> DebugCommand
    ensures { result ≡ command_of line.now }
{
    if is_same(line, b"") {
        DebugCommand::Empty
    } else if is_same(line, b"step") {
        DebugCommand::Step(1)
    } else if is_same(line, b"go") {
        DebugCommand::Go
    } else if is_same(line, b"regs") {
        DebugCommand::Registers
    } else if is_same(line, b"where") {
        DebugCommand::Where
    } else if is_same(line, b"quit") {
        DebugCommand::Quit
    } else if is_same(line, b"back") {
        DebugCommand::Back(1)
    } else if is_same(line, b"rgo") {
        DebugCommand::ReverseGo
    } else {
        numbered(line)
    }
}
