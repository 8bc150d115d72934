//! Instructions and their texts.
use crate::words::{low, number_or, word};
use rv_decode::{decode, encode};
use rv_text::{Text, register_name, write_instr};
use std::alloc::{AllocError, Global};
use std::io;

/// Prints a text as it stands.
pub fn print_text<R: Print>(rt: &R, text: &Text) -> io::Result<()> {
    print!(rt;
        "{}",
        std::str::from_utf8(text.as_bytes()).unwrap_or("no text")
    )
}

/// Prints the instruction of a word, its format, and the word that it is encoded to.
pub fn print_decoded<R: Print>(rt: &R, word: u32) -> io::Result<()> {
    match decode(word) {
        Some(instr) => {
            let (format, again) = (instr.name.format(), encode(&instr));
            println!(rt; "{instr:?} {format:?} {again:08x}")
        }
        None => println!(rt; "no instruction"),
    }
}

// Writes the line of a word's instruction.
fn write_line(text: &mut Text, pc: u32, word: u32) -> Result<(), AllocError> {
    match decode(word) {
        Some(instr) => write_instr(&instr, pc, text)?,
        None => text.push_str("no instruction")?,
    }
    text.push_str("\n")
}

/// Prints the text of a word's instruction.
pub fn print_instr<R: Print>(rt: &R, alloc: Global, pc: u32, word: u32) -> anyhow::Result<()> {
    let mut text = Text::new(alloc);
    write_line(&mut text, pc, word)?;
    Ok(print_text(rt, &text)?)
}

// Changes a text as a line says.
fn push(text: &mut Text, verb: &str, words: &[&str]) -> Result<(), AllocError> {
    let number = low(words, 1);
    match verb {
        "push-bytes" => text.push_bytes(word(words, 1).as_bytes()),
        "push-name" => text.push_str(register_name((number % 32) as u8)),
        "push-decimal" => text.push_decimal(number_or(words, 1, 0)),
        "push-signed" => text.push_signed_decimal(number.cast_signed()),
        "push-hex8" => text.push_hex8(number),
        "push-hex" => text.push_hex(number),
        _ => {
            text.truncate(number as usize);
            Ok(())
        }
    }
}

/// Changes a text as a line says, and prints it.
pub fn change<R: Print>(rt: &R, text: &mut Text, verb: &str, words: &[&str]) -> anyhow::Result<()> {
    let empty = text.is_empty();
    push(text, verb, words)?;
    let (length, shown) = (text.len(), std::str::from_utf8(text.as_bytes())?);
    Ok(println!(rt; "was empty {empty}, is {length} {shown}")?)
}
