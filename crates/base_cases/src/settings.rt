//! Settings, marks and lists.
use crate::words::{decimal, low};
use bn_base::{BadSetting, EndMark, Fault, List, RawSettings, Settings};
use std::alloc::{AllocError, Global};
use std::io;

// The settings with another value for one of them. Scripts name it by a number of their own.
fn with_setting(mut raw: RawSettings, field: u64, value: u64) -> RawSettings {
    match field {
        1 => raw.harts = value,
        2 => raw.interval = value,
        3 => raw.limit = value,
        4 => raw.log_size = value,
        5 => raw.memory = value,
        6 => raw.sets = value,
        7 => raw.ways = value,
        8 => raw.line = value,
        10 => raw.format = value,
        11 => raw.sets2 = value,
        _ => raw.ways2 = value,
    }
    raw
}

// The settings that a line says.
fn raw_of(words: &[&str]) -> RawSettings {
    let mut raw = RawSettings::default();
    for pair in words.get(1..).unwrap_or(&[]).chunks(2) {
        raw = with_setting(raw, decimal(pair, 0), decimal(pair, 1));
    }
    raw
}

/// The settings that a line says, if they are in range.
pub fn checked(words: &[&str]) -> Result<Settings, BadSetting> {
    Settings::checked(&raw_of(words))
}

// Prints whether the settings of a line are in range.
fn print_checked<R: Print>(rt: &R, words: &[&str]) -> io::Result<()> {
    match checked(words) {
        Ok(_) => println!(rt; "in range"),
        Err(bad) => println!(rt; "{bad:?} {}", bad.name()),
    }
}

// The mark of a fault.
fn fault_mark(words: &[&str]) -> Option<EndMark> {
    let fault = Fault::from_number((decimal(words, 2) % 256) as u8)?;
    Some(EndMark::of_fault(decimal(words, 1), fault, low(words, 3)))
}

// The mark that a line says.
fn mark(words: &[&str]) -> EndMark {
    EndMark {
        ic: 0,
        reason: (decimal(words, 1) % 256) as u8,
        value: 0,
    }
}

// The bytes of a line.
fn bytes(alloc: Global, words: &[&str]) -> Result<Vec<u8>, AllocError> {
    let mut bytes = Vec::new(alloc);
    for place in 1..words.len() {
        bytes.push((low(words, place) % 256) as u8)?;
    }
    Ok(bytes)
}

// Prints a list's items, with a space after each.
fn print_items<R: Print>(rt: &R, items: &[u8]) -> io::Result<()> {
    for item in items {
        print!(rt; "{item:x} ")?;
    }
    Ok(())
}

// Prints a list's items, and how many it gives back.
fn print_list<R: Print>(rt: &R, items: Vec<u8>) -> io::Result<()> {
    let list = List::from_vec(items);
    print_items(rt, list.as_slice())?;
    println!(rt; "of {}", list.into_vec().len())
}

// Prints the mark of the fault that a line says, and its word.
fn print_fault_mark<R: Print>(rt: &R, words: &[&str]) -> io::Result<()> {
    match fault_mark(words) {
        Some(mark) => println!(rt; "{mark:?} {}", mark.word()),
        None => println!(rt; "no fault"),
    }
}

// Prints what a line wants to know of settings and marks.
fn tell_setting<R: Print>(rt: &R, verb: &str, words: &[&str]) -> io::Result<()> {
    match verb {
        "settings" => print_checked(rt, words),
        "mark" => println!(rt; "{}", mark(words).word()),
        _ => print_fault_mark(rt, words),
    }
}

/// Prints what a line wants to know of settings, marks and lists.
pub fn tell<R: Print>(rt: &R, alloc: Global, verb: &str, words: &[&str]) -> anyhow::Result<()> {
    match verb {
        "list" => Ok(print_list(rt, bytes(alloc, words)?)?),
        _ => Ok(tell_setting(rt, verb, words)?),
    }
}
