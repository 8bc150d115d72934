//! What replays of a log print.
use crate::words::number;
use bn_base::{Image, Row, Segment, Settings};
use hart_replay::{ReplayError, Replayer};
use log_order::KeptLog;
use rv_text::{Text, write_row};
use std::alloc::{AllocError, Global};
use std::io;

/// The program of these words, from 0x10054 on.
pub fn program(alloc: Global, code: &[u32]) -> Result<Image, AllocError> {
    let mut words = code.to_vec(alloc)?;
    words.truncate(64);
    let count = words.len() as u32;
    let mut segments = Vec::new(alloc);
    segments.push(Segment::new(0x10054, words, count, true, false))?;
    Ok(Image::new(segments, 0x10054, &Settings::default()))
}

/// Prints a text as it stands.
pub fn print_text<R: Print>(rt: &R, text: &Text) -> io::Result<()> {
    print!(rt;
        "{}",
        std::str::from_utf8(text.as_bytes()).unwrap_or("no text")
    )
}

// Prints a row.
fn print_row<R: Print>(rt: &R, alloc: Global, row: &Row) -> anyhow::Result<()> {
    let mut text = Text::new(alloc);
    write_row(row, &mut text)?;
    Ok(print_text(rt, &text)?)
}

// Prints the rows of a replay; how it ends.
fn print_rows<R: Print>(
    rt: &R,
    alloc: Global,
    replayer: &mut Replayer,
) -> anyhow::Result<Result<(), ReplayError>> {
    for _ in 0..1000 {
        match replayer.step() {
            Ok(Some(row)) => print_row(rt, alloc, &row)?,
            Ok(None) => return Ok(Ok(())),
            Err(error) => return Ok(Err(error)),
        }
    }
    Err(anyhow::anyhow!("many rows"))
}

// Prints how a replay ends, and what a further step says.
fn print_end<R: Print>(
    rt: &R,
    outcome: Result<(), ReplayError>,
    further: Result<Option<Row>, ReplayError>,
) -> io::Result<()> {
    println!(rt; "{outcome:?}\n{further:?}")
}

// Prints the rows of a replay, how it ends, and what a further step says.
fn print_replay<R: Print>(rt: &R, alloc: Global, replayer: &mut Replayer) -> anyhow::Result<()> {
    let outcome = print_rows(rt, alloc, replayer)?;
    Ok(print_end(rt, outcome, replayer.step())?)
}

/// Prints an interval's rows, how it ends, and what a further step says, or why it can't be replayed.
pub fn print_interval<R: Print>(
    rt: &R,
    alloc: Global,
    image: &Image,
    log: &KeptLog,
    words: &[&str],
) -> anyhow::Result<()> {
    match Replayer::begin(alloc, image, log, number(words, 2), number(words, 3)) {
        Ok(mut replayer) => print_replay(rt, alloc, &mut replayer),
        Err(error) => Ok(println!(rt; "{error:?}")?),
    }
}
