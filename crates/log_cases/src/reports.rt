//! Replays, slices and race reports of logs.
use crate::files::Files;
use crate::replays::{print_interval, print_text, program};
use crate::words::{number, word};
use bn_base::Image;
use log_blocks::read_file;
use log_order::KeptLog;
use race_report::races_text;
use slice_back::slice_text;
use std::alloc::Global;
use std::io;

// Prints the slice of a row, or why there is none.
fn print_slice<R: Print>(
    rt: &R,
    alloc: Global,
    image: &Image,
    log: &KeptLog,
    words: &[&str],
) -> io::Result<()> {
    let (hart, interval, count) = (number(words, 2), number(words, 3), number(words, 4));
    match slice_text(alloc, image, log, hart, interval, count) {
        Ok(text) => print_text(rt, &text),
        Err(error) => println!(rt; "{error:?}"),
    }
}

// Prints the races of a log, or why there is no report.
fn print_races<R: Print>(
    rt: &R,
    alloc: Global,
    image: &Image,
    log: &KeptLog,
    max: u64,
) -> io::Result<()> {
    match races_text(alloc, image, log, max) {
        Ok(text) => print_text(rt, &text),
        Err(error) => println!(rt; "{error:?}"),
    }
}

// Prints the report of a log that a line wants.
fn report_log<R: Print>(
    rt: &R,
    alloc: Global,
    image: &Image,
    log: &KeptLog,
    words: &[&str],
) -> anyhow::Result<()> {
    match word(words, 0) {
        "replay" => print_interval(rt, alloc, image, log, words),
        "slice" => Ok(print_slice(rt, alloc, image, log, words)?),
        _ => Ok(print_races(rt, alloc, image, log, number(words, 2))?),
    }
}

// Prints the report of a log of these bytes that a line wants.
fn report_bytes<R: Print>(
    rt: &R,
    alloc: Global,
    image: &Image,
    bytes: &[u8],
    words: &[&str],
) -> anyhow::Result<()> {
    match read_file(alloc, bytes) {
        Ok(log) => report_log(rt, alloc, image, &log, words),
        Err(damage) => Ok(println!(rt; "no log: {damage}")?),
    }
}

/// Prints the replay, the slice or else the races of a log, as a line says.
pub fn report<R: Print>(
    rt: &R,
    alloc: Global,
    files: &Files,
    code: &[u32],
    words: &[&str],
) -> anyhow::Result<()> {
    let image = program(alloc, code)?;
    report_bytes(rt, alloc, &image, files.bytes(word(words, 1)), words)
}
