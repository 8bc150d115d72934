//! Rows of instructions.
use crate::texts::print_text;
use crate::words::{low, number_or, word};
use bn_base::{Fault, HartState, Image, Register, Registers, Row};
use rv_meaning::Fetched;
use rv_text::{Text, write_row};
use std::alloc::Global;

// A row with one more part.
fn with_part(mut row: Row, name: &str, first: u32, second: u32) -> Row {
    match name {
        "reg" => row.reg = Some((Register::new((first % 32) as u8), second)),
        "load" => row.load = Some((first, second)),
        "store" => row.store = Some((first, second)),
        _ => row.fault = Fault::from_number((first % 256) as u8).map(|kind| (kind, second)),
    }
    row
}

// A row with the parts that the words from a place on say.
fn with_parts(mut row: Row, words: &[&str], place: usize) -> Row {
    for part in words.get(place..).unwrap_or(&[]).chunks(3) {
        row = with_part(row, word(part, 0), low(part, 1), low(part, 2));
    }
    row
}

// A row that changes nothing.
fn plain(hart: u8, ic: u64, pc: u32, word: Option<u32>) -> Row {
    Row {
        hart,
        ic,
        pc,
        word,
        reg: None,
        load: None,
        store: None,
        fault: None,
    }
}

// A code word, if there is one.
fn word_of(words: &[&str], place: usize) -> Option<u32> {
    u32::from_str_radix(word(words, place), 16).ok()
}

/// The row that a line says.
pub fn part_row(words: &[&str]) -> Row {
    let hart = (low(words, 1) % 256) as u8;
    let row = plain(
        hart,
        number_or(words, 2, 0),
        low(words, 3),
        word_of(words, 4),
    );
    with_parts(row, words, 5)
}

/// Prints the line of a row.
pub fn print_row<R: Print>(rt: &R, alloc: Global, row: &Row) -> anyhow::Result<()> {
    let mut text = Text::new(alloc);
    write_row(row, &mut text)?;
    Ok(print_text(rt, &text)?)
}

// Registers that hold ten times their number.
fn registers() -> Registers {
    let mut x = Registers::new([0; 32]);
    for number in 1..32u8 {
        x.put(Register::new(number), number as u32 * 10);
    }
    x
}

// The row of an instruction of hart 3, after 7 others, with parts as a line says.
fn fetched_row(image: &Image, verb: &str, pc: u32, parts: &Row) -> Option<Row> {
    let x = registers();
    let state = HartState { pc, x, ic: 7 };
    let fetched = Fetched::at(3, image, &state);
    match verb {
        "done" => Some(fetched.row(&x, parts.load, parts.store)),
        "called" => Some(fetched.call_row(parts.reg)),
        "faulted" => {
            let (kind, value) = parts.fault?;
            Some(fetched.fault_row(kind, value))
        }
        _ => None,
    }
}

/// Prints the row that a line wants.
pub fn print_fetched<R: Print>(
    rt: &R,
    alloc: Global,
    image: &Image,
    verb: &str,
    words: &[&str],
) -> anyhow::Result<()> {
    let parts = with_parts(plain(0, 0, 0, None), words, 2);
    match fetched_row(image, verb, low(words, 1), &parts) {
        Some(row) => print_row(rt, alloc, &row),
        None => Err(anyhow::anyhow!("no line of cases: {verb}")),
    }
}
