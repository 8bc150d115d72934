//! What lines make of a file's bytes: more of them, other ones, or damaged ones.
use crate::files::Files;
use crate::logs::written;
use crate::words::{number, rest, word};
use log_file::head::digest_of;
use std::alloc::{AllocError, Global};

// The bytes from a place up to another; none if some of them aren't there.
fn part(bytes: &[u8], from: usize, end: usize) -> &[u8] {
    bytes.get(from..end).unwrap_or(&[])
}

// Appends the lowest bytes of a number, the lowest first.
fn push_number(file: &mut Vec<u8>, width: usize, number: u64) -> Result<(), AllocError> {
    file.extend_from_slice(part(&number.to_le_bytes(), 0, width))
}

// The tag of a kind of records.
fn tag_of(verb: &str) -> Option<u8> {
    match verb {
        "header" => Some(1),
        "first-load" => Some(2),
        "sc-ok" => Some(3),
        "sc-failed" => Some(4),
        "edge" => Some(5),
        "end" => Some(6),
        _ => None,
    }
}

// How many bytes a field of a record has: 1 is a Header, 5 an Edge and 6 an End. A Header's fields after its pc are
// registers.
fn width_of(tag: u8, place: usize) -> usize {
    match (tag, place) {
        (_, 0) => 1,
        (1, 1) => 8,
        (1, 2) => 8,
        (5, 1) => 8,
        (5, 2) => 1,
        (5, 3) => 8,
        (6, 1) => 8,
        (6, 2) => 1,
        _ => 4,
    }
}

// Appends the numbers of a record after its tag.
fn push_numbers(file: &mut Vec<u8>, tag: u8, numbers: &[&str]) -> Result<(), AllocError> {
    for place in 0..numbers.len() {
        push_number(file, width_of(tag, place), number(numbers, place))?;
    }
    Ok(())
}

// Appends a record of these numbers; a Header's last registers may be left out.
fn push_record(file: &mut Vec<u8>, tag: u8, numbers: &[&str]) -> Result<(), AllocError> {
    let end = file.len().saturating_add(146);
    file.push(tag)?;
    push_numbers(file, tag, numbers)?;
    if tag == 1 {
        return file.resize(end, 0);
    }
    Ok(())
}

// Appends the seal of a block after a head. The block's bytes are those of the file from a place on.
fn push_seal(
    alloc: Global,
    file: &mut Vec<u8>,
    head: &[u8],
    start: usize,
) -> Result<(), AllocError> {
    let mut signed = part(head, 104, 136).to_vec(alloc)?;
    signed.extend_from_slice(file.get(start..).unwrap_or(&[]))?;
    file.extend_from_slice(&digest_of(&signed))
}

// Appends a block after a head, sealed: its records' bytes, the two numbers after them, and their length.
fn push_block(
    alloc: Global,
    file: &mut Vec<u8>,
    head: &[u8],
    records: &[u8],
    words: &[&str],
) -> Result<(), AllocError> {
    let start = file.len();
    file.extend_from_slice(records)?;
    push_number(file, 8, number(words, 6))?;
    push_number(file, 4, number(words, 7))?;
    push_number(file, 4, records.len() as u64)?;
    push_seal(alloc, file, head, start)
}

// The bytes of a file from a number up to another.
fn range<'a>(files: &'a Files, name: &str, from: u64, end: u64) -> &'a [u8] {
    part(files.bytes(name), from as usize, end as usize)
}

// Appends all bytes of files.
fn push_files(file: &mut Vec<u8>, files: &Files, names: &[&str]) -> Result<(), AllocError> {
    for name in names {
        file.extend_from_slice(files.bytes(name))?;
    }
    Ok(())
}

// Appends the bytes of others, or a block, as a line says.
fn push_others(
    alloc: Global,
    files: &Files,
    file: &mut Vec<u8>,
    verb: &str,
    words: &[&str],
) -> Result<(), AllocError> {
    let other = files.bytes(word(words, 2));
    match verb {
        "part" => {
            let bytes = range(files, word(words, 2), number(words, 3), number(words, 4));
            file.extend_from_slice(bytes)
        }
        "join" => push_files(file, files, rest(words, 2)),
        "digest" => file.extend_from_slice(&digest_of(other)),
        "take" => {
            file.clear();
            file.extend_from_slice(other)
        }
        _ => {
            let records = range(files, word(words, 3), number(words, 4), number(words, 5));
            push_block(alloc, file, other, records, words)
        }
    }
}

// Puts bytes in place of a file's own from a place on.
fn patch(file: &mut [u8], place: u64, bytes: &[u8]) {
    for (byte, new) in file.iter_mut().skip(place as usize).zip(bytes) {
        *byte = *new;
    }
}

// Puts a number in place of so many bytes of a file from a place on.
fn set(file: &mut [u8], place: u64, width: usize, number: u64) {
    patch(file, place, part(&number.to_le_bytes(), 0, width));
}

// Gives the byte at a place the other lowest bit.
fn flip(file: &mut [u8], place: usize) {
    if let Some(byte) = file.get_mut(place) {
        *byte ^= 1;
    }
}

// Changes a file's bytes in place, as a line says.
fn change(file: &mut Vec<u8>, verb: &str, words: &[&str]) {
    let place = number(words, 2);
    match verb {
        "set" => set(file, place, number(words, 3) as usize, number(words, 4)),
        "flip" => flip(file, place as usize),
        _ => file.truncate(place as usize),
    }
}

// Appends the bytes that a line spells, or puts them in place of a file's own.
fn spell(alloc: Global, file: &mut Vec<u8>, verb: &str, words: &[&str]) -> anyhow::Result<()> {
    match verb {
        "bytes" => {
            let bytes = hex::decode(alloc, word(words, 2))?;
            Ok(file.extend_from_slice(&bytes)?)
        }
        _ => {
            let bytes = hex::decode(alloc, word(words, 3))?;
            patch(file, number(words, 2), &bytes);
            Ok(())
        }
    }
}

/// Makes of a file's bytes what a line says.
pub fn make(
    alloc: Global,
    files: &Files,
    file: &mut Vec<u8>,
    verb: &str,
    words: &[&str],
) -> anyhow::Result<()> {
    if let Some(tag) = tag_of(verb) {
        return Ok(push_record(file, tag, rest(words, 2))?);
    }
    match verb {
        "bytes" | "put" => spell(alloc, file, verb, words),
        "set" | "flip" | "cut" => {
            change(file, verb, words);
            Ok(())
        }
        "part" | "join" | "digest" | "take" | "block" => {
            Ok(push_others(alloc, files, file, verb, words)?)
        }
        _ => {
            *file = written(alloc, files, verb, words)?;
            Ok(())
        }
    }
}
