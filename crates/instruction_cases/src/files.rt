//! Program files.
use crate::words::{low, number_or, word};
use bn_base::{Image, Settings};
use elf_loader::{ElfError, load};
use guest_gen::{Kind, guest};
use le_numbers::write_u32;
use std::alloc::{AllocError, Global};

// Puts a word at a place of a file, if there is room.
fn bend(bytes: &mut [u8], at: usize, word: u32) {
    let len = bytes.len();
    if at < len && len - at >= 4 {
        write_u32(bytes, at, word);
    }
}

// Puts words at places of a file: the words of a line are a place and its word, in turn.
fn bend_all(bytes: &mut [u8], words: &[&str]) {
    for pair in words.chunks(2) {
        bend(bytes, low(pair, 0) as usize, low(pair, 1));
    }
}

// Changes a file as a line has it loaded: it has words at places, or only its first bytes.
fn change(file: &mut Vec<u8>, verb: &str, words: &[&str]) {
    match verb {
        "load" => bend_all(file, words.get(1..).unwrap_or(&[])),
        _ => file.truncate(low(words, 1) as usize),
    }
}

/// Loads a file with the change that a line says.
pub fn loaded(
    alloc: Global,
    file: &[u8],
    verb: &str,
    words: &[&str],
) -> Result<Result<Image, ElfError>, AllocError> {
    let mut bytes = file.to_vec(alloc)?;
    change(&mut bytes, verb, words);
    Ok(load(alloc, &bytes, &Settings::default()))
}

// Makes of a file's bytes those of a text, or its own and these after them.
fn spell(alloc: Global, file: &mut Vec<u8>, verb: &str, text: &str) -> anyhow::Result<()> {
    let others = hex::decode(alloc, text)?;
    if verb == "file" {
        file.clear();
    }
    Ok(file.extend_from_slice(&others)?)
}

// The end of a generated program.
fn kind_of(name: &str) -> Kind {
    match name {
        "crash" => Kind::Crash,
        _ => Kind::Loop,
    }
}

/// Makes of a file's bytes what a line says.
pub fn make(alloc: Global, file: &mut Vec<u8>, verb: &str, words: &[&str]) -> anyhow::Result<()> {
    if verb != "guest" {
        return spell(alloc, file, verb, word(words, 1));
    }
    *file = guest(alloc, number_or(words, 1, 0), kind_of(word(words, 2)))?;
    Ok(())
}
