//! The text of what an instruction changed or read.
ghost use Rattle.std.specs.Prelude.{◌≡◌, ◌<◌, ◌++◌, Some, OnOk, codes};
ghost use Rattle.rv_text.specs.Instructions.{hex8};
ghost use Rattle.rv_text.specs.Rows.{register_text, labelled, changes_text};
ghost use Rattle.rv_text.specs.Texts.{BeginsWith};
ghost use Rattle.rv_text.specs.Lines.{label_text, contents_text, accesses_text};

use crate::Text;
use crate::digits::eight_digits;
use bn_base::{Addr, Register, Row};
use std::alloc::AllocError;

/// The name of a register between ` | ` and `=`; nothing for 32, which is none.
#[tactic(auto, unfolding(crate::specs::Names::register_name, crate::specs::Lines::label_text))]
pub fn label_of(register: u8) -> &'static str
    requires { register < 33 }
    ensures { result.now ≡ label_text register }
{
    match register {
        0 => " | zero=",
        1 => " | ra=",
        2 => " | sp=",
        3 => " | gp=",
        4 => " | tp=",
        5 => " | t0=",
        6 => " | t1=",
        7 => " | t2=",
        8 => " | s0=",
        9 => " | s1=",
        10 => " | a0=",
        11 => " | a1=",
        12 => " | a2=",
        13 => " | a3=",
        14 => " | a4=",
        15 => " | a5=",
        16 => " | a6=",
        17 => " | a7=",
        18 => " | s2=",
        19 => " | s3=",
        20 => " | s4=",
        21 => " | s5=",
        22 => " | s6=",
        23 => " | s7=",
        24 => " | s8=",
        25 => " | s9=",
        26 => " | s10=",
        27 => " | s11=",
        28 => " | t3=",
        29 => " | t4=",
        30 => " | t5=",
        31 => " | t6=",
        _ => "",
    }
}

/// The register that a row writes; 32 if it writes none.
#[inline(always)]
#[tactic(auto, unfolding(crate::specs::Rows::register_text, crate::specs::Lines::label_text))]
pub fn register_of(reg: Option<(Register, u32)>) -> u8
    ensures bound { result < 33 }
    ensures text { register_text reg ≡ label_text result ++ contents_text reg }
{
    match reg {
        Some((register, _)) => register.number(),
        None => 32,
    }
}

/// Appends the new contents of a register, if one was written. An error may leave a part of it.
#[inline(always)]
pub fn write_contents(reg: Option<(Register, u32)>, text: &mut Text) -> Result<(), AllocError>
    ensures ok { OnOk result (text.new ≡ text.old ++ contents_text reg) }
    ensures begins { BeginsWith text.old text.new }
{
    match reg {
        Some((_, value)) => text.push_hex8(value),
        None => Ok(()),
    }
}

/// Appends the new contents of the register that a row writes, if it writes one, and the end of the line. An error may leave
/// a part of it.
pub fn end_with_contents(row: &Row, text: &mut Text) -> Result<(), AllocError>
    ensures ok { OnOk result (text.new ≡ text.old ++ (contents_text row.now.reg ++ codes "\n")) }
    ensures begins { BeginsWith text.old text.new }
{
    write_contents(row.reg, text)?;
    text.push_str("\n")
}

// The register that was written and its new contents. An error may leave a part of it.
#[tactic(auto, unfolding(crate::specs::Rows::register_text, crate::specs::Lines::label_text))]
fn write_register(reg: Option<(Register, u32)>, text: &mut Text) -> Result<(), AllocError>
    ensures ok { OnOk result (text.new ≡ text.old ++ register_text reg) }
    ensures begins { BeginsWith text.old text.new }
{
    match reg {
        Some((register, value)) => {
            text.push_str(label_of(register.number()))?;
            text.push_hex8(value)
        }
        None => Ok(()),
    }
}

// An access after its label: the address and the whole word. An error may leave a part of it.
#[inline(always)]
#[tactic(auto, unfolding(crate::specs::Rows::labelled))]
fn write_access(label: &str, access: Option<(Addr, u32)>, text: &mut Text) -> Result<(), AllocError>
    ensures ok { OnOk result (text.new ≡ text.old ++ labelled label.now access) }
    ensures begins { BeginsWith text.old text.new }
{
    match access {
        Some((addr, value)) => {
            text.push_str(label)?;
            text.push_hex8(addr)?;
            text.push_str("=")?;
            text.push_hex8(value)
        }
        None => Ok(()),
    }
}

// The new contents of a register, the word that it was loaded from, and the end of the line: one append in place of six.
#[inline(always)]
#[tactic(auto, unfolding(crate::specs::Rows::labelled))]
fn loaded_line(value: u32, addr: Addr, word: u32) -> [u8; 34]
    ensures { result ≡ hex8 value ++ (labelled (codes " | load ") (Some (addr, word)) ++ codes "\n") }
{
    let mut line = *b"........ | load ........=........\n";
    // The last ones first: so what is before a place is as it was written here.
    line[25..33].copy_from_slice(&eight_digits(word));
    line[16..24].copy_from_slice(&eight_digits(addr));
    line[..8].copy_from_slice(&eight_digits(value));
    line
}

// A word that was stored, and the end of the line.
#[inline(always)]
#[tactic(auto, unfolding(crate::specs::Rows::labelled))]
fn stored_line(addr: Addr, word: u32) -> [u8; 27]
    ensures { result ≡ labelled (codes " | store ") (Some (addr, word)) ++ codes "\n" }
{
    let mut line = *b" | store ........=........\n";
    line[18..26].copy_from_slice(&eight_digits(word));
    line[9..17].copy_from_slice(&eight_digits(addr));
    line
}

// What an instruction changed that loads or stores, but for the register's label, and the end of the line. An error may
// leave a part of it.
#[inline(never)]
fn end_in_parts(row: &Row, text: &mut Text) -> Result<(), AllocError>
    ensures ok { OnOk result (text.new ≡ text.old ++ (contents_text row.now.reg ++ (accesses_text row.now ++ codes "\n"))) }
    ensures begins { BeginsWith text.old text.new }
{
    write_contents(row.reg, text)?;
    write_accesses(row, text)?;
    text.push_str("\n")
}

/// Appends the new contents of the register that a row writes, if it writes one, what its instruction loaded and stored, and
/// the end of the line. An error may leave a part of it.
#[inline(always)]
#[tactic(auto, unfolding(crate::specs::Rows::labelled))]
pub fn end_with_accesses(row: &Row, text: &mut Text) -> Result<(), AllocError>
    ensures ok { OnOk result (text.new ≡ text.old ++ (contents_text row.now.reg ++ (accesses_text row.now ++ codes "\n"))) }
    ensures begins { BeginsWith text.old text.new }
{
    match (row.reg, row.load, row.store) {
        (Some((_, value)), Some((addr, word)), None) => {
            text.push_bytes(&loaded_line(value, addr, word))
        }
        (None, None, Some((addr, word))) => text.push_bytes(&stored_line(addr, word)),
        _ => end_in_parts(row, text),
    }
}

// What the instruction of a row loaded and stored. An error may leave a part of it.
fn write_accesses(row: &Row, text: &mut Text) -> Result<(), AllocError>
    ensures ok { OnOk result (text.new ≡ text.old ++ (labelled (codes " | load ") row.now.load ++ labelled (codes " | store ") row.now.store)) }
    ensures begins { BeginsWith text.old text.new }
{
    write_access(" | load ", row.load, text)?;
    write_access(" | store ", row.store, text)
}

/// Appends what the instruction of a row changed or read. An error may leave a part of it.
#[tactic(auto, unfolding(crate::specs::Rows::changes_text))]
pub fn write_changes(row: &Row, text: &mut Text) -> Result<(), AllocError>
    ensures ok { OnOk result (text.new ≡ text.old ++ changes_text row.now.reg row.now.load row.now.store) }
    ensures begins { BeginsWith text.old text.new }
{
    write_register(row.reg, text)?;
    write_accesses(row, text)
}
