//! What is read, salvaged and counted of a file, and files that are written.
use crate::files::Files;
use crate::words::{number, word};
use log_blocks::{read_file, salvage, write_file2, write_log2};
use log_file::{count_file, write_file};
use log_order::KeptLog;
use log_record::Head;
use std::alloc::Global;
use std::io;

// Prints how many records a log that was read or salvaged has, and how many it lost.
fn print_kept<R: Print>(rt: &R, verb: &str, log: &KeptLog) -> io::Result<()> {
    println!(rt; "{verb} {} behind {}", log.records().len(), log.dropped())
}

// Prints how many records a log has, or why there is none.
fn print_read<R: Print>(rt: &R, alloc: Global, bytes: &[u8]) -> io::Result<()> {
    match read_file(alloc, bytes) {
        Ok(log) => print_kept(rt, "read", &log),
        Err(damage) => println!(rt; "read {damage:?}"),
    }
}

// Prints how many records are salvaged, or why none is.
fn print_salvaged<R: Print>(rt: &R, alloc: Global, bytes: &[u8]) -> io::Result<()> {
    match salvage(alloc, bytes) {
        Ok(log) => print_kept(rt, "salvaged", &log),
        Err(error) => println!(rt; "salvaged {error:?}"),
    }
}

// Prints what is read, and what is salvaged.
fn print_both<R: Print>(rt: &R, alloc: Global, bytes: &[u8]) -> io::Result<()> {
    print_read(rt, alloc, bytes)?;
    print_salvaged(rt, alloc, bytes)
}

// Prints what is counted of a file of version 1.
fn print_counts<R: Print>(rt: &R, bytes: &[u8]) -> io::Result<()> {
    match count_file(bytes) {
        Ok(counts) => println!(rt; "counted {counts:?}"),
        Err(fault) => println!(rt; "counted {fault:?}"),
    }
}

// Prints bytes in a line.
fn print_line<R: Print>(rt: &R, bytes: &[u8]) -> io::Result<()> {
    for byte in bytes {
        print!(rt; "{byte:02x}")?;
    }
    println!(rt; "")
}

// Prints bytes, 32 a line.
fn print_bytes<R: Print>(rt: &R, bytes: &[u8]) -> io::Result<()> {
    for line in bytes.chunks(32) {
        print_line(rt, line)?;
    }
    Ok(())
}

/// Prints what a line wants to know of a file's bytes.
pub fn tell<R: Print>(rt: &R, alloc: Global, bytes: &[u8], verb: &str) -> io::Result<()> {
    match verb {
        "read" => print_read(rt, alloc, bytes),
        "salvage" => print_salvaged(rt, alloc, bytes),
        "tell" => print_both(rt, alloc, bytes),
        "count" => print_counts(rt, bytes),
        _ => print_bytes(rt, bytes),
    }
}

// The file of the head of another, with records and a number of dropped ones as a line says.
fn with_head(
    alloc: Global,
    files: &Files,
    head: &Head,
    verb: &str,
    words: &[&str],
) -> anyhow::Result<Vec<u8>> {
    let (dropped, records) = (number(words, 3), files.bytes(word(words, 4)));
    anyhow::ensure!(
        records.len() <= head.settings.log_size() as usize,
        "many records"
    );
    if verb == "write2" {
        return Ok(write_file2(alloc, head, dropped, records)?);
    }
    anyhow::ensure!(head.settings.format() == 1, "another format");
    Ok(write_file(alloc, head, dropped, records, &[])?)
}

// The file that a line writes of a log.
fn of_log(
    alloc: Global,
    files: &Files,
    log: &KeptLog,
    verb: &str,
    words: &[&str],
) -> anyhow::Result<Vec<u8>> {
    match verb {
        "write1" | "write2" => with_head(alloc, files, log.head(), verb, words),
        "rescue" | "convert" => Ok(write_log2(alloc, log)?),
        _ => Err(anyhow::anyhow!("no line of cases: {verb}")),
    }
}

/// The file that a line writes of what is read, or salvaged, of another.
pub fn written(
    alloc: Global,
    files: &Files,
    verb: &str,
    words: &[&str],
) -> anyhow::Result<Vec<u8>> {
    let bytes = files.bytes(word(words, 2));
    let log = match verb {
        "rescue" => salvage(alloc, bytes)?,
        _ => read_file(alloc, bytes)?,
    };
    of_log(alloc, files, &log, verb, words)
}
