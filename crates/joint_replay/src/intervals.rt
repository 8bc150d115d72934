//! The retained intervals of a hart, found by their Headers.
ghost use Rattle.std.specs.Prelude.{◌≡◌, ◌<◌, ◌+◌, length, drop, IfSome, IfOk};
ghost use Rattle.std.specs.Option.{option_map};
ghost use Rattle.joint_replay.specs.Intervals.{numbers, AreThere};
ghost use Rattle.joint_replay.specs.Points.{intervals_in, number_in, number_before, IsThere};

use crate::laws::ordered_logs_have_shape;
use bn_base::HartId;
use log_order::KeptLog;
use log_record::Record;
use std::alloc::{AllocError, Global};

/// A retained interval: its number, and the place of its Header among the records.
#[derive(Clone, Copy, Drop)]
pub(crate) struct Retained {
    pub(crate) number: u64,
    pub(crate) place: usize,
}

// The number of the hart's interval that a record begins, if it begins one.
fn number_in(hart: HartId, entry: &Record) -> Option<u64>
    ensures { result ≡ number_in hart entry.now }
{
    match *entry {
        Record::Header {
            hart: of,
            interval,
            ..
        } => { if of == hart { Some(interval) } else { None } }
        Record::FirstLoad { .. } => None,
        Record::ScOk { .. } => None,
        Record::ScFailed { .. } => None,
        Record::Edge { .. } => None,
        Record::End { .. } => None,
    }
}

// The hart's interval whose Header stands at a place, if one does.
fn retained_at(hart: HartId, log: &KeptLog, place: usize) -> Option<Retained>
    requires hart { hart < log.now.head.settings.harts }
    requires place { place < length log.now.records }
    ensures interval { intervals_in hart (drop place log.now.records) ≡ number_before (option_map (λ r. r.number) result) (intervals_in hart (drop (place + 1) log.now.records)) }
    ensures there { IfSome result (λ r. IsThere hart log.now.records r.number r.place) }
{
    let records = log.records();
    ordered_logs_have_shape();
    match number_in(hart, &records.get(place)) {
        None => None,
        Some(number) => Some(Retained { number, place }),
    }
}

/// The retained intervals of a hart, the last first.
// One pass from the last record to the first: that no earlier Header has the same number is a law of logs in
// order.
#[tactic(auto, using(crate::proofs::Retaining::none_gathered))]
pub(crate) fn retained_intervals(
    alloc: Global,
    hart: HartId,
    log: &KeptLog,
) -> Result<Vec<Retained>, AllocError>
    requires { hart < log.now.head.settings.harts }
    ensures numbers { IfOk result (λ rs. numbers rs.items ≡ intervals_in hart log.now.records) }
    ensures there { IfOk result (λ rs. AreThere hart log.now.records rs.items) }
{
    let count = log.records().len();
    let mut found = Vec::new(alloc);
    for passed in 0..count {
        if let Some(one) = retained_at(hart, log, count - 1 - passed) {
            found.push(one)?;
        }
    }
    Ok(found)
}
