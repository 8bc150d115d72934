//! The lines of a joint replay. `specs/` pins each byte.
ghost use Rattle.std.specs.Prelude.{◌≡◌, ◌++◌, OnOk, OnErr};
ghost use Rattle.rv_text.specs.Texts.{BeginsWith};
ghost use Rattle.joint_replay.specs.Texts.{pass_text, known_text, stepped_text};
ghost use Rattle.joint_replay.specs.Moves.{stepped_by};

use crate::kinds::Stepped;
use crate::lane::{Did, Moved};
use bn_base::{Addr, HartId, Ic};
use rv_text::{RowLines, Text, end_with_decimal, end_with_hex8, write_end, write_row};
use std::alloc::AllocError;

// The line of an ordering point; an error may leave a part of it.
#[tactic(auto, unfolding(crate::specs::Texts::pass_text))]
fn write_pass_parts(hart: HartId, ic: Ic, text: &mut Text) -> Result<(), AllocError>
    ensures ok { OnOk result (text.new ≡ text.old ++ pass_text hart ic) }
    ensures begins { BeginsWith text.old text.new }
{
    text.push_str("pass ")?;
    text.push_decimal(u64::from(hart))?;
    end_with_decimal(" ", ic, text)
}

// The line of an ordering point.
fn write_pass(hart: HartId, ic: Ic, text: &mut Text) -> Result<(), AllocError>
    ensures ok { OnOk result (text.new ≡ text.old ++ pass_text hart ic) }
    ensures err { OnErr result (text.new ≡ text.old) }
{
    let length = text.len();
    let written = write_pass_parts(hart, ic, text);
    if written.is_err() {
        text.truncate(length);
    }
    written
}

// The line of a known word; an error may leave a part of it.
#[tactic(auto, unfolding(crate::specs::Texts::known_text))]
fn write_known_parts(addr: Addr, word: u32, text: &mut Text) -> Result<(), AllocError>
    ensures ok { OnOk result (text.new ≡ text.old ++ known_text (addr, word)) }
    ensures begins { BeginsWith text.old text.new }
{
    text.push_str("word ")?;
    text.push_hex8(addr)?;
    end_with_hex8("=", word, text)
}

/// Appends the line of a known word: the word `word`, and its address and contents as eight
/// hexadecimal digits. When out of memory, the text is unchanged.
pub fn write_known(addr: Addr, word: u32, text: &mut Text) -> Result<(), AllocError>
    ensures ok { OnOk result (text.new ≡ text.old ++ known_text (addr, word)) }
    ensures err { OnErr result (text.new ≡ text.old) }
{
    let length = text.len();
    let written = write_known_parts(addr, word, text);
    if written.is_err() {
        text.truncate(length);
    }
    written
}

/// Appends the line of a step: `pass`, the hart and the count of an ordering point; the line of a row;
/// or that of an interval's end. When out of memory, the text is unchanged.
pub fn write_step(stepped: &Stepped, text: &mut Text) -> Result<(), AllocError>
    ensures ok { OnOk result (text.new ≡ text.old ++ stepped_text stepped.now) }
    ensures err { OnErr result (text.new ≡ text.old) }
{
    match stepped {
        Stepped::Passed { hart, ic } => write_pass(*hart, *ic, text),
        Stepped::Did(row) => write_row(row, text),
        Stepped::Ended {
            hart,
            interval,
            mark,
        } => write_end(u64::from(*hart), *interval, mark, text),
    }
}

/// Appends the line of a hart's step, as [`write_step`]; that of a row is one of `lines`, which keeps the
/// texts of code that is done again.
#[inline(always)]
pub(crate) fn write_moved(
    lines: &mut RowLines,
    hart: HartId,
    moved: Moved,
    did: &Did,
    text: &mut Text,
) -> Result<(), AllocError>
    ensures ok { OnOk result (text.new ≡ text.old ++ stepped_text (stepped_by hart moved did.now)) }
    ensures err { OnErr result (text.new ≡ text.old) }
{
    match moved {
        Moved::Passed(ic) => write_pass(hart, ic, text),
        Moved::Row => lines.write_row(&did.row, text),
        Moved::Ended(interval, mark) => write_end(u64::from(hart), interval, &mark, text),
    }
}
