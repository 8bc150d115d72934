//! The lines of a slice. `specs/` pins each byte.
ghost use Rattle.std.specs.Prelude.{◌≡◌, ◌++◌, codes, decimal, OnOk, OnErr};
ghost use Rattle.rv_text.specs.Instructions.{hex8};
ghost use Rattle.rv_text.specs.Texts.{BeginsWith};
ghost use Rattle.slice_back.specs.Texts.{head_text, register_line, word_line, branch_line};

use bn_base::{Addr, Ic, Register, Row};
use rv_text::{Text, end_with_decimal, end_with_hex8, register_name, write_row};
use std::alloc::AllocError;

// The first line; an error may leave a part of it.
#[tactic(auto, unfolding(crate::specs::Texts::head_text))]
fn write_head_parts(hart: u64, ic: Ic, text: &mut Text) -> Result<(), AllocError>
    ensures ok { OnOk result (text.new ≡ text.old ++ head_text hart ic) }
    ensures begins { BeginsWith text.old text.new }
{
    text.push_str("slice ")?;
    text.push_decimal(hart)?;
    end_with_decimal(" ", ic, text)
}

/// Appends the first line of a slice: the word `slice`, the hart and the count of the row in decimal.
/// When out of memory, the text is unchanged.
pub fn write_head(hart: u64, ic: Ic, text: &mut Text) -> Result<(), AllocError>
    ensures ok { OnOk result (text.new ≡ text.old ++ head_text hart ic) }
    ensures err { OnErr result (text.new ≡ text.old) }
{
    let length = text.len();
    let written = write_head_parts(hart, ic, text);
    if written.is_err() {
        text.truncate(length);
    }
    written
}

// The line of a register; an error may leave a part of it.
#[tactic(auto, unfolding(crate::specs::Texts::register_line))]
fn write_register_parts(register: Register, value: u32, text: &mut Text) -> Result<(), AllocError>
    ensures ok { OnOk result (text.new ≡ text.old ++ register_line (register, value)) }
    ensures begins { BeginsWith text.old text.new }
{
    text.push_str("in ")?;
    text.push_str(register_name(register.number()))?;
    end_with_hex8("=", value, text)
}

/// Appends the line of a register from before the interval: the word `in`, its name, and its contents
/// as eight hexadecimal digits. When out of memory, the text is unchanged.
pub fn write_register(register: Register, value: u32, text: &mut Text) -> Result<(), AllocError>
    ensures ok { OnOk result (text.new ≡ text.old ++ register_line (register, value)) }
    ensures err { OnErr result (text.new ≡ text.old) }
{
    let length = text.len();
    let written = write_register_parts(register, value, text);
    if written.is_err() {
        text.truncate(length);
    }
    written
}

// A word, its address and its contents.
fn write_contents(addr: Addr, word: u32, text: &mut Text) -> Result<(), AllocError>
    ensures ok { OnOk result (text.new ≡ text.old ++ (hex8 addr ++ codes "=" ++ hex8 word ++ codes "\n")) }
    ensures begins { BeginsWith text.old text.new }
{
    text.push_hex8(addr)?;
    end_with_hex8("=", word, text)
}

// The word for what was there before, and the count of the row that took it.
fn write_taker(ic: Ic, text: &mut Text) -> Result<(), AllocError>
    ensures ok { OnOk result (text.new ≡ text.old ++ (codes "in " ++ decimal ic ++ codes " ")) }
    ensures begins { BeginsWith text.old text.new }
{
    text.push_str("in ")?;
    text.push_decimal(ic)?;
    text.push_str(" ")
}

// The line of a word; an error may leave a part of it.
#[tactic(auto, unfolding(crate::specs::Texts::word_line))]
fn write_word_parts(ic: Ic, addr: Addr, word: u32, text: &mut Text) -> Result<(), AllocError>
    ensures ok { OnOk result (text.new ≡ text.old ++ word_line (ic, addr, word)) }
    ensures begins { BeginsWith text.old text.new }
{
    write_taker(ic, text)?;
    write_contents(addr, word, text)
}

/// Appends the line of a word that the log told: the word `in`, the count of the row that took it in
/// decimal, and its aligned address and its contents as eight hexadecimal digits. When out of memory,
/// the text is unchanged.
pub fn write_word(ic: Ic, addr: Addr, word: u32, text: &mut Text) -> Result<(), AllocError>
    ensures ok { OnOk result (text.new ≡ text.old ++ word_line (ic, addr, word)) }
    ensures err { OnErr result (text.new ≡ text.old) }
{
    let length = text.len();
    let written = write_word_parts(ic, addr, word, text);
    if written.is_err() {
        text.truncate(length);
    }
    written
}

// The line of a branch; an error may leave a part of it.
#[tactic(auto, unfolding(crate::specs::Texts::branch_line))]
fn write_branch_parts(row: &Row, text: &mut Text) -> Result<(), AllocError>
    ensures ok { OnOk result (text.new ≡ text.old ++ branch_line row.now) }
    ensures begins { OnErr result (BeginsWith text.old text.new) }
{
    text.push_str("branch ")?;
    write_row(row, text)
}

/// Appends the line of a branch that isn't in the slice: the word `branch` and its row. When out of
/// memory, the text is unchanged.
pub fn write_branch(row: &Row, text: &mut Text) -> Result<(), AllocError>
    ensures ok { OnOk result (text.new ≡ text.old ++ branch_line row.now) }
    ensures err { OnErr result (text.new ≡ text.old) }
{
    let length = text.len();
    let written = write_branch_parts(row, text);
    if written.is_err() {
        text.truncate(length);
    }
    written
}
