//! The first loads of an interval.
ghost use Rattle.std.specs.Prelude.{◌≡◌, drop, IfOk};
ghost use Rattle.slice_back.specs.Common.{interval_of, loads_in, due, met};
ghost use Rattle.slice_back.specs.FirstLoads.{AreLoadsOf};

use bn_base::HartId;
use hart_replay::header::find;
use hart_replay::scan::load_in;
use log_record::RecordList;
use std::alloc::{AllocError, Global};
use std::marker::Model;

// Those of a hart (skip, value) among the records from a place on, up to its next End.
fn loads_from(
    alloc: Global,
    hart: HartId,
    records: &RecordList,
    from: usize,
) -> Result<Vec<(u32, u32)>, AllocError>
    ensures { IfOk result (λ loads. loads.items ≡ loads_in hart (drop from records.now)) }
{
    let mut loads = Vec::new(alloc);
    for place in from..records.len() {
        match load_in(hart, &records.get(place)) {
            None => continue,
            Some(None) => return Ok(loads),
            Some(Some(load)) => loads.push(load)?,
        }
    }
    Ok(loads)
}

/// The first loads (skip, value) of an interval, in their order; none if the log doesn't keep it.
pub(crate) fn first_loads(
    alloc: Global,
    hart: u64,
    interval: u64,
    records: &RecordList,
) -> Result<Vec<(u32, u32)>, AllocError>
    ensures { IfOk result (λ loads. AreLoadsOf (interval_of hart interval records.now) loads.items) }
{
    match find(hart, interval, records, 0) {
        None => Ok(Vec::new(alloc)),
        Some(start) => loads_from(alloc, start.hart, records, start.next),
    }
}

/// The first loads that are still to be met, and the number of loading accesses since the last one
/// that was.
// A row doesn't say whether it took its word from the log, since the same value may come from an earlier row. So
// it is counted, as the replay counts.
#[derive(Drop)]
pub(crate) struct Pending<'a> {
    left: &'a [(u32, u32)],
    skipped: u32,
}

impl<'a> Model for Pending<'a> {
    ghost use Rattle.hart_replay.specs.Scans.{Pending as PendingLoads, IsWaiting};

    ghost Value = { PendingLoads };

    ghost view = { λ p. record { loads = p.left.now; skipped = p.skipped } };

    ghost invariant = { λ p. IsWaiting p.skipped p.left.now };
}

impl<'a> Pending<'a> {
    /// All of them are to be met.
    pub(crate) fn new(loads: &'a [(u32, u32)]) -> Pending<'a>
        ensures { result ≡ record { loads = loads.now; skipped = 0 } }
    {
        Pending {
            left: loads,
            skipped: 0,
        }
    }

    /// A loading access: the value of the first load that it meets, if it meets one.
    pub(crate) fn take(&mut self) -> Option<u32>
        ensures value { result ≡ due self.old.skipped self.old.loads }
        ensures left { self.new ≡ met self.old.skipped self.old.loads }
    {
        match self.left.split_first() {
            None => None,
            Some((next, rest)) => {
                if self.skipped == next.0 {
                    let value = next.1;
                    self.left = rest;
                    self.skipped = 0;
                    Some(value)
                } else {
                    self.skipped += 1;
                    None
                }
            }
        }
    }
}
