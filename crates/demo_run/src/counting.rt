//! Counts the rows that replays of single intervals give: a figure of the demonstration.
ghost use Rattle.std.specs.Prelude.{◌≡◌, ◌≢◌, ◌≤◌, ◌<◌, ◌+◌, ◌^◌, length, drop, None, IfOk};
ghost use Rattle.hart_replay.specs.Replay.{Done, interval_of, replayed};
ghost use Rattle.demo_run.specs.Demonstration.{rows_in};
ghost use Rattle.demo_run.specs.Starts.{AllComeToEnd};

use bn_base::{Ic, Image};
use hart_replay::{ReplayError, Replayer};
use log_order::KeptLog;
use log_record::Record;
use std::alloc::{AllocError, Global};

// The rows that are left of a replay that goes to its End.
fn count_left(mut replayer: Replayer) -> Result<u128, AllocError>
    requires done { replayer.left.outcome ≡ Done }
    requires few { length replayer.left.rows ≤ 2 ^ 64 }
    ensures count { IfOk result (λ count. count ≡ length replayer.entry.left.rows) }
    ensures few { IfOk result (λ count. count ≤ 2 ^ 64) }
{
    let mut count: u128 = 0;
    'rows: loop {
        match replayer.step() {
            Ok(Some(_)) => count += 1,
            Ok(None) => return Ok(count),
            Err(ReplayError::OutOfMemory) => return Err(AllocError),
            Err(_) => unreachable!(),
        }
    }
}

// The count of the End that a replay goes to.
fn end_of(replayer: &Replayer) -> Ic
    ensures { result ≡ replayer.now.mark.ic }
{
    replayer.mark().ic
}

// The rows of the replay of an interval that a log has.
fn count_interval(
    alloc: Global,
    image: &Image,
    log: &KeptLog,
    hart: u64,
    interval: u64,
) -> Result<u128, AllocError>
    requires there { interval_of hart interval log.now.records ≢ None }
    requires ends { AllComeToEnd image.now log.now }
    ensures count { IfOk result (λ count. count ≡ length (replayed image.now log.now.records hart interval).rows) }
    ensures few { IfOk result (λ count. count ≤ 2 ^ 64) }
{
    match Replayer::begin(alloc, image, log, hart, interval) {
        Ok(replayer) => {
            let _end = end_of(&replayer);
            count_left(replayer)
        }
        Err(_) => unreachable!(),
    }
}

// The rows of the replay of the interval that a record of a log begins.
fn count_at(alloc: Global, image: &Image, log: &KeptLog, place: usize) -> Result<u128, AllocError>
    requires there { place < length log.now.records }
    requires ends { AllComeToEnd image.now log.now }
    ensures count { IfOk result (λ count. count + rows_in image.now log.now.records (drop (place + 1) log.now.records) ≡ rows_in image.now log.now.records (drop place log.now.records)) }
    ensures few { IfOk result (λ count. count ≤ 2 ^ 64) }
{
    match log.records().get(place) {
        Record::Header { hart, interval, .. } => {
            count_interval(alloc, image, log, u64::from(hart), interval)
        }
        Record::FirstLoad { .. } => Ok(0),
        Record::ScOk { .. } => Ok(0),
        Record::ScFailed { .. } => Ok(0),
        Record::Edge { .. } => Ok(0),
        Record::End { .. } => Ok(0),
    }
}

/// Replays by itself each interval whose Header a log has, and counts the rows. The only error is out of
/// memory.
pub fn count_rows(alloc: Global, image: &Image, log: &KeptLog) -> Result<u128, AllocError>
    requires { AllComeToEnd image.now log.now }
    ensures { IfOk result (λ rows. rows ≡ rows_in image.now log.now.records log.now.records) }
{
    let count = log.records().len();
    let mut rows: u128 = 0;
    for place in 0..count {
        rows += count_at(alloc, image, log, place)?;
    }
    Ok(rows)
}
