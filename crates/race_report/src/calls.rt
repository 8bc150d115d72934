//! The bytes that read calls fill and write calls take.
ghost use Rattle.std.specs.Prelude.{◌≡◌, ◌≤◌, true, false, Some, IfSome};
ghost use Rattle.race_report.specs.Common.{HartState, call_result, filled};
ghost use Rattle.race_report.specs.Points.{asked_by, sent, words_with, IsTouch};

use crate::touch::Touch;
use bn_base::{Addr, HartState, Register, Row};

/// What a hart's registers ask of a system call: its number (a7), and its first two arguments (a0
/// and a1), which are a stream and a buffer.
#[derive(Clone, Copy, Drop)]
pub(crate) struct Asked {
    number: u32,
    stream: u32,
    buffer: Addr,
}

impl Asked {
    /// What a hart asks in this state.
    pub(crate) fn by(state: &HartState) -> Asked
        ensures { result ≡ asked_by state.now }
    {
        Asked {
            number: state.x.get(Register::new(17)),
            stream: state.x.get(Register::new(10)),
            buffer: state.x.get(Register::new(11)),
        }
    }
}

// The result of a call of this number after which the hart continues.
fn call_result(asked: Asked, number: u32, row: &Row) -> Option<u32>
    ensures { (before : HartState) → asked ≡ asked_by before → result ≡ call_result number before row.now }
{
    match row.word {
        None => None,
        Some(word) => {
            if word == 0x73 && asked.number == number {
                match row.reg {
                    None => None,
                    Some((_, value)) => Some(value),
                }
            } else {
                None
            }
        }
    }
}

// The words that so many bytes are of.
fn words_with(first: Addr, count: u32, writes: bool) -> Touch
    requires { count ≤ 4096 }
    ensures value { words_with (Some (record { first = first; count = count })) writes ≡ Some result }
    ensures whole { IsTouch result }
{
    Touch {
        first: first / 4 * 4,
        count: (first % 4 + count + 3) / 4,
        writes,
        syncs: false,
    }
}

/// The words of the bytes that a row's call filled, if it is a read call that filled some.
pub(crate) fn filled_words(asked: Asked, row: &Row) -> Option<Touch>
    ensures value { (before : HartState) → asked ≡ asked_by before → result ≡ words_with (filled before row.now) true }
    ensures whole { IfSome result IsTouch }
{
    match call_result(asked, 63, row) {
        None => None,
        Some(count) => {
            if asked.stream == 0 && (0 < count && count <= 4096) {
                Some(words_with(asked.buffer, count, true))
            } else {
                None
            }
        }
    }
}

/// The words of the bytes that a row's call took, if it is a write call that took some.
pub(crate) fn sent_words(asked: Asked, row: &Row) -> Option<Touch>
    ensures value { (before : HartState) → asked ≡ asked_by before → result ≡ words_with (sent before row.now) false }
    ensures whole { IfSome result IsTouch }
{
    match call_result(asked, 64, row) {
        None => None,
        Some(count) => {
            if (asked.stream == 1 || asked.stream == 2) && (0 < count && count <= 4096) {
                Some(words_with(asked.buffer, count, false))
            } else {
                None
            }
        }
    }
}
