//! The search for the Header that an interval begins with, and with it the replay.
ghost use Rattle.std.specs.Prelude.{◌≡◌, ◌∷◌, List, None, take, drop, IfSome};
ghost use Rattle.log_record.specs.declared.record.Record.{Record};
ghost use Rattle.hart_replay.specs.Replay.{interval_of};
ghost use Rattle.hart_replay.specs.Starts.{started, found_in};

use bn_base::{HartId, HartState};
use log_record::{Record, RecordList};

/// The start of an interval: its hart and state, and the place of the record after its Header.
#[derive(Drop)]
pub struct IntervalStart {
    pub hart: HartId,
    pub state: HartState,
    pub next: usize,
}

// The hart and state of the Header of an interval, if the record is it.
fn start_in(hart: u64, interval: u64, entry: &Record) -> Option<(HartId, HartState)>
    ensures start { (rs : List Record) → interval_of hart interval (entry.now ∷ rs) ≡ started result hart rs (interval_of hart interval rs) }
    ensures hart { IfSome result (λ s. s.0 ≡ hart) }
{
    match *entry {
        Record::Header {
            hart: of,
            interval: number,
            ic,
            pc,
            x,
        } => {
            if of as u64 == hart && number == interval {
                Some((of, HartState { pc, x, ic }))
            } else {
                None
            }
        }
        Record::FirstLoad { .. } => None,
        Record::ScOk { .. } => None,
        Record::ScFailed { .. } => None,
        Record::Edge { .. } => None,
        Record::End { .. } => None,
    }
}

/// Finds the Header of an interval, which doesn't come before a place.
#[tactic(auto, using(crate::proofs::Skipped::skipped))]
pub fn find(hart: u64, interval: u64, records: &RecordList, from: usize) -> Option<IntervalStart>
    requires before { interval_of hart interval (take from records.now) ≡ None }
    ensures start { interval_of hart interval records.now ≡ found_in result hart records.now }
    ensures hart { IfSome result (λ s. s.hart ≡ hart) }
{
    for place in from..records.len() {
        if let Some((hart, state)) = start_in(hart, interval, &records.get(place)) {
            return Some(IntervalStart {
                hart,
                state,
                next: place + 1,
            });
        }
    }
    None
}
