//! The bytes that read calls fill. The log doesn't have them, so a joint replay forgets their words.
ghost use Rattle.std.specs.Prelude.{◌≡◌, Some};
ghost use Rattle.joint_replay.specs.Common.{option_map, HartState};
ghost use Rattle.joint_replay.specs.Memory.{call_result, filled};
ghost use Rattle.joint_replay.specs.Moves.{asked_by, range_of};

use bn_base::{Addr, HartState, Register, Row};

/// What a hart's registers ask of a system call: its number (a7), and its first two arguments (a0
/// and a1), for a read call the file and the buffer.
#[derive(Clone, Copy, Drop)]
pub(crate) struct Asked {
    number: u32,
    file: u32,
    buffer: u32,
}

impl Asked {
    /// What a hart asks in this state.
    pub(crate) fn by(state: &HartState) -> Asked
        ensures { result ≡ asked_by state.now }
    {
        Asked {
            number: state.x.get(Register::new(17)),
            file: state.x.get(Register::new(10)),
            buffer: state.x.get(Register::new(11)),
        }
    }
}

// The result of a read call after which the hart continues.
fn read_result(asked: Asked, row: &Row) -> Option<u32>
    ensures { (before : HartState) → asked ≡ asked_by before → result ≡ call_result 63 before row.now }
{
    match row.word {
        None => None,
        Some(word) => {
            if word == 0x73 && asked.number == 63 {
                match row.reg {
                    None => None,
                    Some((_, value)) => Some(value),
                }
            } else {
                None
            }
        }
    }
}

// The bytes that the call of a row filled. Apart, since few rows are of calls.
#[cold]
#[inline(never)]
fn filled_by_call(asked: Asked, row: &Row) -> Option<(Addr, u32)>
    ensures { (before : HartState) → asked ≡ asked_by before → result ≡ option_map range_of (filled before row.now) }
{
    match read_result(asked, row) {
        None => None,
        Some(count) => {
            if asked.file == 0 && (0 < count && count <= 4096) {
                Some((asked.buffer, count))
            } else {
                None
            }
        }
    }
}

/// The bytes that a row's call filled, by the address of the first and how many they are, if it is
/// a read call that filled some.
pub(crate) fn filled(asked: Asked, row: &Row) -> Option<(Addr, u32)>
    ensures { (before : HartState) → asked ≡ asked_by before → result ≡ option_map range_of (filled before row.now) }
{
    match row.word {
        None => None,
        Some(word) => {
            if word == 0x73 {
                filled_by_call(asked, row)
            } else {
                None
            }
        }
    }
}
