//! A slice as its text.
ghost use Rattle.std.specs.Prelude.{◌≡◌, ◌++◌, OnOk, IfOk};
ghost use Rattle.slice_back.specs.Common.{flat_map, row_text};
ghost use Rattle.slice_back.specs.Texts.{register_line, word_line, branch_line, slice_text, IsTextAnswer};

use crate::back::slice;
use crate::error::SliceError;
use crate::lists::Slice;
use crate::texts::{write_branch, write_head, write_register, write_word};
use bn_base::{Addr, Ic, Image, Register, Row};
use log_order::KeptLog;
use rv_text::{Text, write_row};
use std::alloc::{AllocError, Global};

// Appends the lines of rows.
fn write_rows(rows: &[Row], text: &mut Text) -> Result<(), AllocError>
    ensures { OnOk result (text.new ≡ text.old ++ flat_map row_text rows.now) }
{
    for row in rows {
        write_row(row, text)?;
    }
    Ok(())
}

// Appends the lines of registers.
fn write_registers(regs: &[(Register, u32)], text: &mut Text) -> Result<(), AllocError>
    ensures { OnOk result (text.new ≡ text.old ++ flat_map register_line regs.now) }
{
    for one in regs {
        write_register(one.0, one.1, text)?;
    }
    Ok(())
}

// Appends the lines of words.
fn write_words(words: &[(Ic, Addr, u32)], text: &mut Text) -> Result<(), AllocError>
    ensures { OnOk result (text.new ≡ text.old ++ flat_map word_line words.now) }
{
    for one in words {
        write_word(one.0, one.1, one.2, text)?;
    }
    Ok(())
}

// Appends the lines of branches.
fn write_branches(rows: &[Row], text: &mut Text) -> Result<(), AllocError>
    ensures { OnOk result (text.new ≡ text.old ++ flat_map branch_line rows.now) }
{
    for row in rows {
        write_branch(row, text)?;
    }
    Ok(())
}

// Appends all lines of a slice.
fn write_slice(hart: u64, ic: Ic, slice: &Slice, text: &mut Text) -> Result<(), AllocError>
    ensures { OnOk result (text.new ≡ text.old ++ slice_text hart ic slice.now) }
{
    write_head(hart, ic, text)?;
    write_rows(slice.rows.as_slice(), text)?;
    write_registers(slice.regs.as_slice(), text)?;
    write_words(slice.words.as_slice(), text)?;
    write_branches(slice.branches.as_slice(), text)
}

// The text of a slice.
fn text_of(alloc: Global, hart: u64, ic: Ic, slice: &Slice) -> Result<Text, AllocError>
    ensures { IfOk result (λ text. text ≡ slice_text hart ic slice.now) }
{
    let mut text = Text::new(alloc);
    write_slice(hart, ic, slice, &mut text)?;
    Ok(text)
}

/// The text of the backward slice of the row of a count. It has the first line and the lines of the
/// rows, of the registers and the words that it takes from before, and of the branches that aren't in it.
/// If there is no slice, the error is that of `slice`.
pub fn slice_text(
    alloc: Global,
    image: &Image,
    log: &KeptLog,
    hart: u64,
    interval: u64,
    ic: Ic,
) -> Result<Text, SliceError>
    ensures { IsTextAnswer image.now log.now.records hart interval ic result }
{
    match slice(alloc, image, log, hart, interval, ic) {
        Err(error) => Err(error),
        Ok(made) => match text_of(alloc, hart, ic, &made) {
            Ok(text) => Ok(text),
            Err(_) => Err(SliceError::OutOfMemory),
        },
    }
}
