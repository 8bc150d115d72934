//! A walk along the records of an interval: its first loads, conditionals and End.
ghost use Rattle.std.specs.Prelude.{◌≡◌, length, drop};
ghost use Rattle.hart_replay.specs.Replay.{Logged, put};
ghost use Rattle.hart_replay.specs.Scans.{loads_in, conditionals_in, mark_in, in_front, scanned, mark_or};

use bn_base::{EndMark, HartId};
use log_record::{Record, RecordList};

/// What a record says of the first loads of a hart's interval: nothing, or that there are no more,
/// or one.
#[tactic(auto, using(crate::proofs::Puts::loads_of_ok, crate::proofs::Puts::loads_of_failed))]
pub fn load_in(hart: HartId, entry: &Record) -> Option<Option<(u32, u32)>>
    ensures { (l : Logged) → (put hart entry.now l).loads ≡ scanned result l.loads }
{
    match *entry {
        Record::FirstLoad {
            hart: of,
            skip,
            value,
        } => {
            if of == hart {
                Some(Some((skip, value)))
            } else {
                None
            }
        }
        Record::End { hart: of, .. } => { if of == hart { Some(None) } else { None } }
        Record::Header { .. } => None,
        Record::ScOk { .. } => None,
        Record::ScFailed { .. } => None,
        Record::Edge { .. } => None,
    }
}

// What a record says of the store-conditionals of a hart's interval.
#[tactic(auto, using(crate::proofs::Puts::conditionals_of_load))]
fn conditional_in(hart: HartId, entry: &Record) -> Option<Option<bool>>
    ensures { (l : Logged) → (put hart entry.now l).conditionals ≡ scanned result l.conditionals }
{
    match *entry {
        Record::ScOk { hart: of } => { if of == hart { Some(Some(true)) } else { None } }
        Record::ScFailed { hart: of } => { if of == hart { Some(Some(false)) } else { None } }
        Record::End { hart: of, .. } => { if of == hart { Some(None) } else { None } }
        Record::Header { .. } => None,
        Record::FirstLoad { .. } => None,
        Record::Edge { .. } => None,
    }
}

// The mark of a hart's End.
#[tactic(auto, using(crate::proofs::Puts::mark_of_load, crate::proofs::Puts::mark_of_ok, crate::proofs::Puts::mark_of_failed))]
fn end_in(hart: HartId, entry: &Record) -> Option<EndMark>
    ensures { (l : Logged) → (put hart entry.now l).mark ≡ mark_or result l.mark }
{
    match *entry {
        Record::End { hart: of, mark } => { if of == hart { Some(mark) } else { None } }
        Record::Header { .. } => None,
        Record::FirstLoad { .. } => None,
        Record::ScOk { .. } => None,
        Record::ScFailed { .. } => None,
        Record::Edge { .. } => None,
    }
}

/// The next first load (skip, value) of a hart's interval among the records from a place on, and
/// the place after it.
pub(crate) fn next_load(
    hart: HartId,
    records: &RecordList,
    from: usize,
) -> (Option<(u32, u32)>, usize)
    ensures { in_front result.0 (loads_in hart (drop result.1 records.now)) ≡ loads_in hart (drop from records.now) }
{
    for place in from..records.len() {
        if let Some(found) = load_in(hart, &records.get(place)) {
            return (found, place + 1);
        }
    }
    (None, from)
}

/// The next store-conditional of a hart's interval, whether it succeeded, and the place after it.
pub(crate) fn next_conditional(
    hart: HartId,
    records: &RecordList,
    from: usize,
) -> (Option<bool>, usize)
    ensures { in_front result.0 (conditionals_in hart (drop result.1 records.now)) ≡ conditionals_in hart (drop from records.now) }
{
    for place in from..records.len() {
        if let Some(found) = conditional_in(hart, &records.get(place)) {
            return (found, place + 1);
        }
    }
    (None, from)
}

/// How many first loads of a hart's interval there are among the records from a place on.
pub(crate) fn count_loads(hart: HartId, records: &RecordList, from: usize) -> u64
    ensures { result ≡ length (loads_in hart (drop from records.now)) }
{
    let mut count = 0;
    for place in from..records.len() {
        match load_in(hart, &records.get(place)) {
            None => continue,
            Some(None) => return count,
            Some(Some(_)) => count += 1,
        }
    }
    count
}

/// How many store-conditionals of a hart's interval there are among the records from a place on.
pub(crate) fn count_conditionals(hart: HartId, records: &RecordList, from: usize) -> u64
    ensures { result ≡ length (conditionals_in hart (drop from records.now)) }
{
    let mut count = 0;
    for place in from..records.len() {
        match conditional_in(hart, &records.get(place)) {
            None => continue,
            Some(None) => return count,
            Some(Some(_)) => count += 1,
        }
    }
    count
}

/// The mark of a hart's next End among the records from a place on.
pub fn next_mark(hart: HartId, records: &RecordList, from: usize) -> EndMark
    ensures { result ≡ mark_in hart (drop from records.now) }
{
    for place in from..records.len() {
        if let Some(mark) = end_in(hart, &records.get(place)) {
            return mark;
        }
    }
    EndMark {
        ic: 0,
        reason: 0,
        value: 0,
    }
}
