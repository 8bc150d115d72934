//! The line of a row: what a replay prints of an instruction. `specs/Rows.antt` pins each byte.
ghost use Rattle.std.specs.Prelude.{◌≡◌, ◌++◌, ◌<◌, OnOk, OnErr, codes, option_map};
ghost use Rattle.rv_decode.specs.Seen.{seen};
ghost use Rattle.rv_text.specs.Instructions.{hex8};
ghost use Rattle.rv_text.specs.Rows.{point_text, shown_word, shown_instruction, code_text, fault_text, effects_text, row_text};
ghost use Rattle.rv_text.specs.Texts.{BeginsWith};

use crate::code::write_word;
use crate::effects::write_changes;
use crate::text::Text;
use bn_base::{Addr, Fault, HartId, Ic, Row};
use rv_decode::{Instr, decode};
use std::alloc::AllocError;

/// A number after a space.
pub(crate) fn write_spaced(number: u32, text: &mut Text) -> Result<(), AllocError>
    ensures ok { OnOk result (text.new ≡ text.old ++ (codes " " ++ hex8 number)) }
    ensures begins { BeginsWith text.old text.new }
{
    text.push_str(" ")?;
    text.push_hex8(number)
}

/// The hart, its count and the pc.
#[tactic(auto, unfolding(crate::specs::Rows::point_text))]
fn write_point(hart: HartId, ic: Ic, pc: Addr, text: &mut Text) -> Result<(), AllocError>
    ensures ok { OnOk result (text.new ≡ text.old ++ point_text hart ic pc) }
    ensures begins { BeginsWith text.old text.new }
{
    text.push_decimal(u64::from(hart))?;
    text.push_str(" ")?;
    text.push_decimal(ic)?;
    write_spaced(pc, text)
}

/// The word to show: none if the fetch faulted.
fn shown_word(fault: Option<(Fault, u32)>, word: Option<u32>) -> Option<u32>
    ensures { result ≡ shown_word fault word }
{
    match fault {
        Some((Fault::FetchOutside, _)) => None,
        _ => word,
    }
}

/// The instruction to show: none if the word is illegal.
fn shown_instruction(fault: Option<(Fault, u32)>, word: u32) -> Option<Instr>
    ensures { option_map seen result ≡ shown_instruction fault word }
{
    match fault {
        Some((Fault::Illegal, _)) => None,
        _ => decode(word),
    }
}

/// The code of a row: the word and its text.
fn write_code(row: &Row, text: &mut Text) -> Result<(), AllocError>
    ensures ok { OnOk result (text.new ≡ text.old
        ++ code_text row.now.pc row.now.fault (shown_word row.now.fault row.now.word)) }
    ensures begins { BeginsWith text.old text.new }
{
    match shown_word(row.fault, row.word) {
        Some(word) => write_word(row.pc, word, shown_instruction(row.fault, word), text),
        None => text.push_str(" -------- -"),
    }
}

/// The fault and its value.
#[tactic(auto, unfolding(crate::specs::Rows::fault_text))]
fn write_fault(fault: Option<(Fault, u32)>, text: &mut Text) -> Result<(), AllocError>
    ensures ok { OnOk result (text.new ≡ text.old ++ fault_text fault) }
    ensures begins { BeginsWith text.old text.new }
{
    match fault {
        Some((kind, value)) => {
            text.push_str(" | fault ")?;
            text.push_str(kind.name())?;
            write_spaced(value, text)
        }
        None => Ok(()),
    }
}

/// What the instruction changed or read, and its fault.
fn write_effects(row: &Row, text: &mut Text) -> Result<(), AllocError>
    ensures ok { OnOk result (text.new ≡ text.old ++ effects_text row.now) }
    ensures begins { BeginsWith text.old text.new }
{
    write_changes(row, text)?;
    write_fault(row.fault, text)
}

/// The line of a row; an error may leave a part of it.
#[tactic(auto, unfolding(crate::specs::Rows::row_text))]
fn write_row_parts(row: &Row, text: &mut Text) -> Result<(), AllocError>
    ensures ok { OnOk result (text.new ≡ text.old ++ row_text row.now) }
    ensures begins { BeginsWith text.old text.new }
{
    write_point(row.hart, row.ic, row.pc, text)?;
    write_code(row, text)?;
    write_effects(row, text)?;
    text.push_str("\n")
}

/// Appends the line of a row: the hart and its count in decimal, the pc and the word as eight
/// hexadecimal digits, and the instruction's text. Then ` | ` comes before each of the written
/// register, the load, the store and the fault that is there. If the fetch faulted, the word is
/// `--------` and the text `-`. If the word is illegal, the text is `illegal`. When out of memory,
/// the text is unchanged.
pub fn write_row(row: &Row, text: &mut Text) -> Result<(), AllocError>
    ensures ok { OnOk result (text.new ≡ text.old ++ row_text row.now) }
    ensures err { OnErr result (text.new ≡ text.old) }
{
    let mark = text.len();
    let written = write_row_parts(row, text);
    if written.is_err() {
        text.truncate(mark);
    }
    written
}
