//! The whole demonstration: a recording, its log read back, and both kinds of replay of it.
ghost use Rattle.std.specs.Prelude.{◌≡◌, IfOk};
ghost use Rattle.log_file.specs.declared.error.FileError.TheVariants.{OutOfMemory};
ghost use Rattle.log_file.specs.Counts.{counts_of};
ghost use Rattle.log_file.specs.Layout.{file_bytes};
ghost use Rattle.demo_run.specs.Demonstration.{demo, demo_program, demo_log, figures_of, demo_text};
ghost use Rattle.demo_run.specs.Starts.{IsRecordedRun};

use crate::counting::count_rows;
use crate::figures::Figures;
use crate::joining::join;
use crate::laws::demonstrations_are_recordings;
use crate::recording::{DemoRecording, record};
use crate::starting::start_of;
use bn_base::Image;
use file_laws::logs_are_contents;
use joint_laws::{own_logs_are_logs, recordings_run_to_the_end};
use log_file::{FileError, LogCounts, count_file, read_file};
use log_order::KeptLog;
use replay_laws::{the_log_suffices, the_rows_of_an_interval_stand_together};
use rv_text::Text;
use sha2::{Digest, Sha256};
use std::alloc::{AllocError, Global};

// The error of reading a file that is well formed: out of memory, the only one that it can be.
fn as_alloc_error(error: FileError) -> AllocError
    requires { error ≡ OutOfMemory }
{
    match error {
        FileError::OutOfMemory => AllocError,
        _ => unreachable!(),
    }
}

// What the log file says.
fn read_back(alloc: Global, file: &[u8], seed: u64) -> Result<KeptLog, AllocError>
    requires { file.now ≡ file_bytes (demo_log seed) }
    ensures { IfOk result (λ log. log ≡ demo_log seed) }
{
    demonstrations_are_recordings();
    logs_are_contents();
    match read_file(alloc, file) {
        Ok(log) => Ok(log),
        Err(error) => Err(as_alloc_error(error)),
    }
}

// What is counted of it.
fn counts(file: &[u8], seed: u64) -> LogCounts
    requires { file.now ≡ file_bytes (demo_log seed) }
    ensures { result ≡ counts_of (demo_log seed) }
{
    demonstrations_are_recordings();
    logs_are_contents();
    match count_file(file) {
        Ok(counts) => counts,
        Err(_) => unreachable!(),
    }
}

// The recording and the replays, counted.
fn figures(alloc: Global, seed: u64) -> Result<Figures, AllocError>
    ensures { IfOk result (λ figures. figures ≡ figures_of seed (demo seed)) }
{
    let start = start_of(alloc, seed)?;
    let recorded = record(alloc, &start, seed)?;
    replay(alloc, &start.image, &recorded, seed)
}

// The replays of a recording, counted with it.
fn replay(
    alloc: Global,
    image: &Image,
    recorded: &DemoRecording,
    seed: u64,
) -> Result<Figures, AllocError>
    requires image { image.now ≡ demo_program seed }
    requires recorded { IsRecordedRun seed recorded.now }
    ensures { IfOk result (λ figures. figures ≡ figures_of seed (demo seed)) }
{
    demonstrations_are_recordings();
    the_log_suffices();
    the_rows_of_an_interval_stand_together();
    own_logs_are_logs();
    recordings_run_to_the_end();
    let log = read_back(alloc, &recorded.file, seed)?;
    let counts = counts(&recorded.file, seed);
    let rows = count_rows(alloc, image, &log)?;
    let known = join(alloc, image, &log)?;
    Ok(Figures {
        seed,
        turns: recorded.turns,
        instructions: recorded.instructions,
        records: counts.records,
        dropped: counts.dropped,
        bytes: counts.bytes,
        intervals: counts.intervals,
        rows,
        words: (known.len() / 8) as u64,
        digest: Sha256::digest(&known),
    })
}

/// The five lines of the demonstration of a number:
/// - the number;
/// - the turns and the instructions of the run;
/// - the records that its log of a mebibyte keeps, those that were dropped, and the bytes of the kept ones;
/// - the intervals that the log keeps, and the rows that their replays give, each by itself;
/// - the words that are known after the joint replay of all of them, with their SHA-256 digest (FIPS 180-4).
///   The digest is of the words by ascending address: address and value, four bytes each, the lowest first.
///
/// The program is the loop that the number generates. Four harts do 200,000 instructions each, in intervals
/// of 10,000, by the turns that the number chooses.
///
/// The only error is out of memory: the loader takes each generated program, the log is read back, and
/// nothing in it stops a replay.
pub fn demo_lines(alloc: Global, seed: u64) -> Result<Text, AllocError>
    ensures { IfOk result (λ text. text ≡ demo_text seed) }
{
    let figures = figures(alloc, seed)?;
    let mut text = Text::new(alloc);
    figures.push_lines(&mut text)?;
    Ok(text)
}
