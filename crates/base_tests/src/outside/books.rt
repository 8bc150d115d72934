//! Books through their trait's bound.
ghost use Rattle.std.specs.Prelude.{◌≡◌, ◌++◌, ◌∷◌, [], true, OnOk, OnErr};

use bn_base::{HartId, HartState, Registers};
use bn_outside::*;
use rv_meaning::{Ask, Reply, Want};
use std::alloc::{AllocError, Global};
use std::sync::{Mutex, Wait};
use std::thread;
use std::thread::Threads;

// A hart's state at its start.
fn start() -> HartState {
    HartState {
        pc: 0x10054,
        x: Registers::new([0; 32]),
        ic: 0,
    }
}

// A cut of a hart at its start, which doesn't end the hart.
fn row_of(hart: HartId) -> TurnRow {
    TurnRow {
        hart,
        ask: Ask {
            state: start(),
            want: Want::Cut,
        },
        reply: Reply::Went,
        guarded: false,
    }
}

// Whether a row is the one that `row_of` makes for this hart.
fn is_row_of(row: &TurnRow, hart: HartId) -> bool {
    row.hart == hart
        && row.ask.state == start()
        && row.ask.want == Want::Cut
        && row.reply == Reply::Went
        && !row.guarded
}

// Notes one row in any book.
fn note_one<B: Book>(book: &mut B, row: TurnRow) -> Result<(), AllocError>
    ensures noted { OnOk result (B.tells ≡ true → B.told book.new ≡ B.told book.old ++ row ∷ []) }
    ensures kept { OnErr result (B.told book.new ≡ B.told book.old) }
{
    book.room()?;
    book.note(row);
    Ok(())
}

// Makes a row the only one of any book.
fn note_anew<B: Book>(book: &mut B, row: TurnRow) -> Result<(), AllocError>
    ensures noted { OnOk result (B.tells ≡ true → B.told book.new ≡ row ∷ []) }
    ensures kept { OnErr result (B.told book.new ≡ []) }
{
    book.clear();
    note_one(book, row)
}

// The harts of a book's rows, as the digits of a number, if it tells them.
fn harts_in<B: Book>(book: &B) -> Option<u64> {
    let rows = book.rows()?;
    let digits = rows.iter().map(|row| u64::from(row.hart));
    Some(digits.fold(
        0,
        |number: u64, digit| number.wrapping_mul(10).wrapping_add(digit),
    ))
}

// Each of two threads notes a row of its own in a book under a lock.
fn note_from_two<B: Book + Send, R: Threads + Wait + Sync>(
    rt: &R,
    book: B,
) -> Result<B, AllocError> {
    let shared = Mutex::new(book);
    let (first, second) = thread::join(
        rt,
        || note_one(&mut *shared.lock(rt), row_of(3)),
        || note_one(&mut *shared.lock(rt), row_of(3)),
    );
    first?;
    second?;
    Ok(shared.into_inner())
}

// Notes a row of each of these harts in any book.
fn note_all<B: Book>(book: &mut B, harts: &[HartId]) -> Result<(), AllocError> {
    for &hart in harts {
        note_one(book, row_of(hart))?;
    }
    Ok(())
}

// The harts in a full book after these notes.
fn full_after(alloc: Global, harts: &[HartId]) -> Result<Option<u64>, AllocError> {
    let mut book = FullBook::new(alloc);
    note_all(&mut book, harts)?;
    Ok(harts_in(&book))
}

// Whether the last row of a full book is that of this hart, after these notes.
fn ends_with(alloc: Global, harts: &[HartId], hart: HartId) -> Result<bool, AllocError> {
    let mut book = FullBook::new(alloc);
    note_all(&mut book, harts)?;
    match book.rows() {
        Some(rows) => Ok(rows.last().is_some_and(|row| is_row_of(row, hart))),
        None => Ok(false),
    }
}

// The harts in any book that is cleared after its first note, of hart 2, and told of harts 5 and 6.
fn cleared<B: Book>(mut book: B) -> Result<Option<u64>, AllocError> {
    clear_noted(&mut book)?;
    Ok(harts_in(&book))
}

// Notes a row, clears the book, and notes two others.
fn clear_noted<B: Book>(book: &mut B) -> Result<(), AllocError> {
    note_one(book, row_of(2))?;
    note_anew(book, row_of(5))?;
    note_one(book, row_of(6))
}

// The harts in a book in which each of two threads notes a row of its own.
fn told_by_two<B: Book + Send, R: Threads + Wait + Sync>(
    rt: &R,
    book: B,
) -> Result<Option<u64>, AllocError> {
    let book = note_from_two(rt, book)?;
    Ok(harts_in(&book))
}

// The harts in a full book without notes, and after these three; and whether its last row is that of the last one.
fn in_order(alloc: Global) -> Result<(Option<u64>, Option<u64>, bool), AllocError> {
    let none = full_after(alloc, &[])?;
    let all = full_after(alloc, &[2, 1, 7])?;
    let last = ends_with(alloc, &[2, 1, 7], 7)?;
    Ok((none, all, last))
}

#[test]
fn a_full_book_tells_its_rows_in_the_order_of_the_notes(rt: HostRuntime) -> Result<(), AllocError> {
    let told = in_order(rt.alloc())?;
    assert!(rt; told == (Some(0), Some(217), true));
    Ok(())
}

#[test]
fn a_cleared_book_tells_what_was_noted_since(rt: HostRuntime) -> Result<(), AllocError> {
    let told = cleared(FullBook::new(rt.alloc()))?;
    assert!(rt; told == Some(56));
    Ok(())
}

#[test]
fn a_lean_book_tells_no_rows(rt: HostRuntime) -> Result<(), AllocError> {
    let told = cleared(LeanBook)?;
    assert!(rt; told.is_none());
    Ok(())
}

#[test]
fn threads_note_in_one_full_book_under_a_lock(rt: HostRuntime) -> Result<(), AllocError> {
    let told = told_by_two(&rt, FullBook::new(rt.alloc()))?;
    assert!(rt; told == Some(33));
    Ok(())
}

#[test]
fn threads_note_in_one_lean_book_under_a_lock(rt: HostRuntime) -> Result<(), AllocError> {
    let told = told_by_two(&rt, LeanBook)?;
    assert!(rt; told.is_none());
    Ok(())
}
