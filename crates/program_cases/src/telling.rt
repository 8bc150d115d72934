//! What runs hand over, as lines.
use bn_base::{EndMark, HartId};
use bn_outside::{Book, TurnRow};
use bus_core::Closed;
use log_record::size;
use std::alloc::Global;
use std::io;

// Prints bytes in a line.
fn print_line<R: Print>(rt: &R, bytes: &[u8]) -> io::Result<()> {
    for byte in bytes {
        print!(rt; "{byte:02x}")?;
    }
    println!(rt; "")
}

/// Prints bytes in hexadecimal, 32 a line.
pub fn print_bytes<R: Print>(rt: &R, bytes: &[u8]) -> io::Result<()> {
    for line in bytes.chunks(32) {
        print_line(rt, line)?;
    }
    Ok(())
}

/// Prints a line of a name and numbers.
pub fn print_numbers<R: Print>(rt: &R, name: &str, numbers: &[HartId]) -> io::Result<()> {
    print!(rt; "{name}")?;
    for number in numbers {
        print!(rt; " {number}")?;
    }
    println!(rt; "")
}

/// Prints how many bytes records have, and the first byte of each, which tells its kind.
pub fn print_records<R: Print>(rt: &R, bytes: &[u8]) -> io::Result<()> {
    print!(rt; "size {} kinds", bytes.len())?;
    let mut at = 0usize;
    for _ in 0..bytes.len() {
        let Some(tag) = bytes.get(at) else { break };
        print!(rt; " {tag}")?;
        at = at.saturating_add(size(*tag).unwrap_or(bytes.len()));
    }
    println!(rt; "")
}

/// Prints a hart's last mark.
pub fn print_end<R: Print>(rt: &R, hart: HartId, mark: Option<EndMark>) -> io::Result<()> {
    match mark {
        Some(EndMark { ic, reason, value }) => println!(rt; "end {hart} {ic} {reason} {value}"),
        None => println!(rt; "end {hart} none"),
    }
}

/// Prints the harts of rows, if a book tells them.
pub fn print_rows<R: Print>(rt: &R, rows: Option<&[TurnRow]>) -> io::Result<()> {
    let Some(rows) = rows else {
        return println!(rt; "book of no rows");
    };
    print!(rt; "book")?;
    for row in rows {
        print!(rt; " {}", row.hart)?;
    }
    println!(rt; "")
}

// Prints the last marks of harts, by their numbers.
fn print_ends<R: Print>(rt: &R, marks: &[Option<EndMark>]) -> io::Result<()> {
    let mut hart: HartId = 0;
    for mark in marks {
        print_end(rt, hart, *mark)?;
        hart = hart.saturating_add(1);
    }
    Ok(())
}

// Prints a line of how many turns were taken, whether they ended the run, and how many bytes it wrote to out
// and to err, and then these bytes.
fn print_turns<R: Print, B: Book>(rt: &R, closed: &Closed<B>) -> io::Result<()> {
    let (turns, finished) = (closed.turns, closed.finished);
    print!(rt; "turns {turns}, finished {finished}")?;
    println!(rt; ", out {}, err {}", closed.out.len(), closed.err.len())?;
    print_bytes(rt, &closed.out)?;
    print_bytes(rt, &closed.err)
}

// Prints what was handed over after a run, with these records.
fn print_parts<R: Print, B: Book>(rt: &R, closed: &Closed<B>, records: &[u8]) -> io::Result<()> {
    print_records(rt, records)?;
    print_ends(rt, &closed.ends)?;
    print_rows(rt, closed.book.rows())?;
    print_turns(rt, closed)
}

/// Prints what was handed over after a run, and gives its records.
pub fn print_closed<R: Print, B: Book>(
    rt: &R,
    alloc: Global,
    closed: &Closed<B>,
) -> anyhow::Result<Vec<u8>> {
    let records = closed.ring.copy(alloc)?;
    print_parts(rt, closed, &records)?;
    Ok(records)
}
