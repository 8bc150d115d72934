//! `slice`: the interval is replayed, and its rows are gone over from the last back.
ghost use Rattle.std.specs.Prelude.{◌≡◌, ℕ, List};
ghost use Rattle.slice_back.specs.Common.{Program, Record, Begins, interval_of};
ghost use Rattle.slice_back.specs.FirstLoads.{AreLoadsOf};
ghost use Rattle.slice_back.specs.Answers.{IsAnswer};

use crate::error::SliceError;
use crate::first_loads::first_loads;
use crate::lists::Slice;
use crate::row_trace::rows_up_to;
use crate::slicing::slice_of;
use bn_base::{Ic, Image, Registers};
use hart_replay::Replayer;
use log_order::KeptLog;
use log_record::RecordList;
use std::alloc::Global;

/// The backward slice of the row of a count in an interval of a hart, by data alone. It has the rows
/// that this one depends on, what came from before the interval or from the log, and the branches that
/// aren't in it.
///
/// The whole interval is replayed first. Replay comes if and only if that is refused, and then NoRow
/// if and only if the interval has no row of that count. OutOfMemory may come instead, but not if the
/// log keeps no such interval. It takes time in proportion to the interval's rows, and memory in
/// proportion to those up to the given one.
pub fn slice(
    alloc: Global,
    image: &Image,
    log: &KeptLog,
    hart: u64,
    interval: u64,
    ic: Ic,
) -> Result<Slice, SliceError>
    ensures { IsAnswer image.now log.now.records hart interval ic result }
{
    match Replayer::begin(alloc, image, log, hart, interval) {
        Ok(mut replayer) => { slice_begun(alloc, &mut replayer, log.records(), hart, interval, ic) }
        Err(error) => Err(SliceError::Replay(error)),
    }
}

// The slice of the interval that a replayer begins.
fn slice_begun(
    alloc: Global,
    replayer: &mut Replayer,
    records: &RecordList,
    hart: u64,
    interval: u64,
    ic: Ic,
) -> Result<Slice, SliceError>
    ensures { (image : Program) → Begins image hart interval records.now replayer.old → IsAnswer image records.now hart interval ic result }
{
    match first_loads(alloc, hart, interval, records) {
        Ok(loads) => slice_by(alloc, replayer, &loads, ic),
        Err(_) => Err(SliceError::OutOfMemory),
    }
}

// The same, by the interval's first loads.
fn slice_by(
    alloc: Global,
    replayer: &mut Replayer,
    loads: &[(u32, u32)],
    ic: Ic,
) -> Result<Slice, SliceError>
    ensures { (image : Program) (records : List Record) (hart interval : ℕ) → Begins image hart interval records replayer.old →
        AreLoadsOf (interval_of hart interval records) loads.now → IsAnswer image records hart interval ic result }
{
    let start = replayer.state().x;
    match rows_up_to(alloc, replayer, loads, ic) {
        Err(error) => Err(error),
        Ok(None) => Err(SliceError::NoRow { ic }),
        Ok(Some(noted)) => match slice_of(alloc, &start, &noted) {
            Ok(slice) => Ok(slice),
            Err(_) => Err(SliceError::OutOfMemory),
        },
    }
}
