//! Numbers in bytes.
use crate::words::{low, wide, word};
use le_numbers::{push_u32, push_u64, read_u16, read_u32, read_u64, write_u32, write_u64};
use std::alloc::{AllocError, Global};
use std::io;

// Prints the numbers at a place, if the bytes are there.
fn print_read<R: Print>(rt: &R, bytes: &[u8], at: usize) -> io::Result<()> {
    if at < bytes.len() && bytes.len() - at >= 8 {
        let (narrow, middle) = (read_u16(bytes, at), read_u32(bytes, at));
        return println!(rt; "{narrow:x} {middle:x} {:x}", read_u64(bytes, at));
    }
    Ok(())
}

// Writes a number of four bytes, if there is room.
fn written4(mut bytes: Vec<u8>, at: usize, number: u32) -> Vec<u8> {
    let len = bytes.len();
    if at < len && len - at >= 4 {
        write_u32(&mut bytes, at, number);
    }
    bytes
}

// Writes a number of eight bytes, if there is room.
fn written8(mut bytes: Vec<u8>, at: usize, number: u64) -> Vec<u8> {
    let len = bytes.len();
    if at < len && len - at >= 8 {
        write_u64(&mut bytes, at, number);
    }
    bytes
}

// The bytes of a number of 32 bits and one of 64.
fn pushed(alloc: Global, first: u32, second: u64) -> Result<Vec<u8>, AllocError> {
    let mut bytes = Vec::new(alloc);
    push_u32(&mut bytes, first)?;
    push_u64(&mut bytes, second)?;
    Ok(bytes)
}

// The bytes that a line makes.
fn made(alloc: Global, verb: &str, words: &[&str]) -> anyhow::Result<Vec<u8>> {
    if verb == "push" {
        return Ok(pushed(alloc, low(words, 1), wide(words, 2))?);
    }
    let (at, number) = (low(words, 1) as usize, wide(words, 2));
    let bytes = hex::decode(alloc, word(words, 3))?;
    match verb {
        "write4" => Ok(written4(bytes, at, low(words, 2))),
        _ => Ok(written8(bytes, at, number)),
    }
}

// Prints bytes.
fn print_bytes<R: Print>(rt: &R, bytes: &[u8]) -> io::Result<()> {
    for byte in bytes {
        print!(rt; "{byte:02x}")?;
    }
    println!(rt; "")
}

// Prints the numbers at the place of a line's bytes that it says.
fn print_reading<R: Print>(rt: &R, alloc: Global, words: &[&str]) -> anyhow::Result<()> {
    let bytes = hex::decode(alloc, word(words, 2))?;
    Ok(print_read(rt, &bytes, low(words, 1) as usize)?)
}

/// Prints what a line wants to know of numbers.
pub fn tell<R: Print>(rt: &R, alloc: Global, verb: &str, words: &[&str]) -> anyhow::Result<()> {
    match verb {
        "read" => print_reading(rt, alloc, words),
        _ => Ok(print_bytes(rt, &made(alloc, verb, words)?)?),
    }
}
