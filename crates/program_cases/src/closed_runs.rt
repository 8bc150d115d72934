//! Whole runs, by a list of turns or by a number that chooses them.
use crate::telling::{print_closed, print_numbers};
use bn_base::HartId;
use bn_outside::{Book, FullBook, LeanBook};
use run_model::Start;
use std::alloc::Global;
use whole_runs::{run_listed, run_seeded, run_turns};

/// Prints what a run by a list of turns hands over, and gives its records; none if the list is refused.
pub fn by_turns<R: Print, B: Book>(
    rt: &R,
    alloc: Global,
    start: &Start,
    book: B,
    list: &[HartId],
) -> anyhow::Result<Vec<u8>> {
    match run_turns(alloc, start, book, list) {
        Ok(closed) => print_closed(rt, alloc, &closed),
        Err(error) => {
            println!(rt; "refused: {error}")?;
            Ok(Vec::new(alloc))
        }
    }
}

/// Prints what a run by a number hands over, and gives its records.
pub fn by_number<R: Print>(
    rt: &R,
    alloc: Global,
    start: &Start,
    seed: u64,
) -> anyhow::Result<Vec<u8>> {
    let closed = run_seeded(alloc, start, FullBook::new(alloc), seed)?;
    print_closed(rt, alloc, &closed)
}

/// Prints the list of the turns of a run by a number and what the run hands over, and gives its
/// records.
pub fn with_list<R: Print>(
    rt: &R,
    alloc: Global,
    start: &Start,
    seed: u64,
) -> anyhow::Result<Vec<u8>> {
    let run = run_listed(alloc, start, LeanBook, seed, true)?;
    print_numbers(rt, "list", &run.list)?;
    print_closed(rt, alloc, &run.closed)
}
