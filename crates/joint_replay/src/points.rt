//! The ordering points of a hart: accesses of lost intervals that Edges name.
ghost use Rattle.std.specs.Prelude.{◌≡◌, ◌∷◌, List, None, drop, IfOk, OnOk};
ghost use Rattle.log_record.specs.declared.record.Record.{Record};
ghost use Rattle.joint_replay.specs.Points.{is_below, first_count, insert, insert_if, points_below, ordering_points, or_first};

use bn_base::{HartId, Ic};
use log_record::{Record, RecordList};
use std::alloc::{AllocError, Global};
use std::collections::BTreeSet;

// The count of a Header of the hart, if the record is one.
fn header_count(hart: HartId, entry: &Record) -> Option<Ic>
    ensures { (rs : List Record) → first_count hart (entry.now ∷ rs) ≡ or_first result (first_count hart rs) }
{
    match *entry {
        Record::Header { hart: of, ic, .. } => { if of == hart { Some(ic) } else { None } }
        Record::FirstLoad { .. } => None,
        Record::ScOk { .. } => None,
        Record::ScFailed { .. } => None,
        Record::Edge { .. } => None,
        Record::End { .. } => None,
    }
}

/// The count of the hart's first retained Header.
pub(crate) fn first_count(hart: HartId, records: &RecordList) -> Option<Ic>
    ensures { result ≡ first_count hart records.now }
{
    for place in 0..records.len() {
        if let Some(ic) = header_count(hart, &records.get(place)) {
            return Some(ic);
        }
    }
    None
}

// Whether a count is below the first Header's. Every count is, if there is none.
fn is_below(first: Option<Ic>, ic: Ic) -> bool
    ensures { result ≡ is_below first ic }
{
    match first {
        None => true,
        Some(first) => ic < first,
    }
}

// Adds a number, if that is wanted.
#[tactic(auto, using(crate::proofs::InsertedKeys::key_inserted))]
fn insert_if(wanted: bool, number: Ic, points: &mut BTreeSet<Ic>) -> Result<(), AllocError>
    ensures { OnOk result (points.new.keys ≡ insert_if wanted number points.old.keys) }
{
    if wanted {
        points.insert(number)?;
    }
    Ok(())
}

// Adds the points of the hart that an Edge names, as its source or its target, if they are below
// the first Header's count.
fn add_points(
    first: Option<Ic>,
    hart: HartId,
    entry: &Record,
    points: &mut BTreeSet<Ic>,
) -> Result<(), AllocError>
    ensures { OnOk result ((rs : List Record) → points.old.keys ≡ points_below first hart rs → points.new.keys ≡ points_below first hart (entry.now ∷ rs)) }
{
    match *entry {
        Record::Edge {
            hart: into,
            ic,
            from,
            from_ic,
        } => {
            insert_if(from == hart && is_below(first, from_ic), from_ic, points)?;
            insert_if(into == hart && is_below(first, ic), ic, points)
        }
        Record::Header { .. } => Ok(()),
        Record::FirstLoad { .. } => Ok(()),
        Record::ScOk { .. } => Ok(()),
        Record::ScFailed { .. } => Ok(()),
        Record::End { .. } => Ok(()),
    }
}

/// The ordering points of a hart.
// An ordered set, filled from the last record to the first, as the definition has it.
pub(crate) fn ordering_points(
    alloc: Global,
    hart: HartId,
    records: &RecordList,
) -> Result<BTreeSet<Ic>, AllocError>
    ensures { IfOk result (λ points. points.keys ≡ ordering_points hart records.now) }
{
    let first = first_count(hart, records);
    let mut points = BTreeSet::new(alloc);
    for passed in 0..records.len() {
        add_points(
            first,
            hart,
            &records.get(records.len() - 1 - passed),
            &mut points,
        )?;
    }
    Ok(points)
}
