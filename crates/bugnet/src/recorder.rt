//! The recording of a run: its log file, its list of turns, and what its outputs get.
ghost use Rattle.std.specs.Prelude.{◌≡◌, ◌++◌, [], ℕ, List, IfOk, Some, None, false};
ghost use Rattle.bugnet.specs.Common.{list_any, began_of, end_word, summary_text};
ghost use Rattle.whole_runs.specs.Chosen.{IsListed};
ghost use Rattle.bugnet.specs.Recordings.{count_of, instructions_of, is_fault, is_limit, end_by, book_if, AreScheduled};
ghost use Rattle.bugnet.specs.ClosedRuns.{IsRecordingOf, IsRecordingBy};

use bn_base::EndMark;
use bn_base::end_mark::{FAULT, LIMIT};
use bn_outside::{Book, Gate, LeanBook, Schedule};
use log_commands::answer::{RunEnd, RunToTell};
use log_commands::texts::{RunCounts, push_summary};
use run_files::saved_file;
use run_model::Start;
use rv_text::Text;
use std::alloc::{AllocError, Global};
use std::sync::Wait;
use std::thread::Threads;
use whole_runs::{Listed, run_listed, run_scheduled, run_threads_listed};

fn count_of(mark: &Option<EndMark>) -> u64
    ensures { result ≡ count_of mark.now }
{
    match mark {
        Some(mark) => mark.ic,
        None => 0,
    }
}

// The instructions that all harts did: the sum of their last marks' counts.
fn instructions_of(marks: &[Option<EndMark>]) -> u128
    ensures { result ≡ instructions_of marks.now }
{
    let mut sum = 0;
    for place in 0..marks.len() {
        sum += u128::from(count_of(&marks[place]));
    }
    sum
}

// Whether a hart ended in a fault.
fn is_fault(mark: &Option<EndMark>) -> bool
    ensures { result ≡ is_fault mark.now }
{
    match mark {
        Some(mark) => mark.reason > FAULT,
        None => false,
    }
}

// Whether a hart ended because it met the limit of instructions; false of one without a mark.
fn is_limit(mark: &Option<EndMark>) -> bool
    ensures { result ≡ is_limit mark.now }
{
    match mark {
        Some(mark) => mark.reason == LIMIT,
        None => false,
    }
}

fn any_fault(marks: &[Option<EndMark>]) -> bool
    ensures { result ≡ list_any is_fault marks.now }
{
    marks.iter().any(|mark| is_fault(mark))
}

fn any_limit(marks: &[Option<EndMark>]) -> bool
    ensures { result ≡ list_any is_limit marks.now }
{
    marks.iter().any(|mark| is_limit(mark))
}

// How a run ended that left its harts with these marks.
fn end_by(marks: &[Option<EndMark>]) -> RunEnd
    ensures { result ≡ end_by marks.now }
{
    if any_fault(marks) {
        RunEnd::Fault
    } else if any_limit(marks) {
        RunEnd::Limit
    } else {
        RunEnd::Done
    }
}

// Stream 2 of a run, and the line of its recording.
fn err_of(
    alloc: Global,
    mut err: Vec<u8>,
    counts: &RunCounts,
    end: &RunEnd,
) -> Result<Vec<u8>, AllocError>
    ensures { IfOk result (λ text. text.items ≡ err.items ++ summary_text counts.now.turns counts.now.instructions counts.now.dropped counts.now.kept (end_word end.now)) }
{
    let mut line = Text::new(alloc);
    push_summary(&mut line, counts, end.word())?;
    err.extend_from_slice(line.as_bytes())?;
    Ok(err)
}

// The recording of a closed run, and of the list of its turns unless it is lean.
fn recording_of<B: Book>(
    alloc: Global,
    start: &Start,
    run: Listed<B>,
    lean: bool,
) -> Result<RunToTell, AllocError>
    requires { run.closed.ring.size ≡ start.now.settings.log_size }
    ensures { IfOk result (λ r. IsRecordingOf start.now run.closed (book_if lean run.list.items) r) }
{
    let Listed { closed, list } = run;
    let end = end_by(&closed.ends);
    let counts = RunCounts {
        turns: closed.turns,
        instructions: instructions_of(&closed.ends),
        dropped: closed.ring.dropped(),
        kept: closed.ring.len() as u64,
    };
    let log = saved_file(alloc, start, &closed.ring)?;
    let err = err_of(alloc, closed.err, &counts, &end)?;
    Ok(RunToTell {
        end,
        out: closed.out,
        err,
        log,
        book: if lean { None } else { Some(list) },
    })
}

// A run by the schedule, or without one by the turns of one hart, which are those of any seed.
fn run_here(
    alloc: Global,
    start: &Start,
    schedule: Option<Schedule>,
    keeps: bool,
) -> Result<Listed<LeanBook>, AllocError>
    ensures { IfOk result (λ run. (list : List ℕ) × IsListed false keeps (began_of start.now) list run [] × AreScheduled schedule.entry (began_of start.now) list) }
{
    match schedule {
        Some(schedule) => run_scheduled(alloc, start, LeanBook, schedule, keeps),
        None => run_listed(alloc, start, LeanBook, 0, keeps),
    }
}

/// The recording of the run by the turns that a number chooses. Of a turn one byte is kept, the number of its hart, and no
/// row; of a lean recording's turn nothing is. The only error is running out of memory.
pub fn record_by_seed(
    alloc: Global,
    start: &Start,
    seed: u64,
    lean: bool,
) -> Result<RunToTell, AllocError>
    ensures { IfOk result (λ r. IsRecordingBy start.now (record { seed = Some seed; lean = lean; schedule = None }) r) }
{
    let run = run_listed(alloc, start, LeanBook, seed, !lean)?;
    recording_of(alloc, start, run, lean)
}

/// The recording of a run without a seed on this thread: by a schedule, or the only run of one hart. As much of a turn is
/// kept. The only error is running out of memory.
pub fn record_scheduled(
    alloc: Global,
    start: &Start,
    lean: bool,
    schedule: Option<Schedule>,
) -> Result<RunToTell, AllocError>
    ensures { IfOk result (λ r. IsRecordingBy start.now (record { seed = None; lean = lean; schedule = schedule.entry }) r) }
{
    let run = run_here(alloc, start, schedule, !lean)?;
    recording_of(alloc, start, run, lean)
}

/// The recording of a run whose harts are in threads of their own. As much of a turn is kept. The only error is running out
/// of memory.
pub fn record_threaded<G: Gate, R: Threads + Wait + Sync>(
    rt: &R,
    alloc: Global,
    start: &Start,
    lean: bool,
    gate: &G,
) -> Result<RunToTell, AllocError>
    ensures { IfOk result (λ r. IsRecordingBy start.now (record { seed = None; lean = lean; schedule = None }) r) }
{
    let run = run_threads_listed(rt, alloc, start, LeanBook, gate, !lean)?;
    recording_of(alloc, start, run, lean)
}
