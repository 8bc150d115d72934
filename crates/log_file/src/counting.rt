//! Testing and counting the bytes of records, in no memory.
ghost use Rattle.std.specs.Prelude.{◌≡◌, ◌≤◌, ◌<◌, ◌++◌, ◌∷◌, [], List, ℕ, length, Result, IfOk, IfErr};
ghost use Rattle.log_file.specs.Common.{flat_map, AllByRecursion, Record, bytes_of, total, Fits, HartView, OrderBreak, after_all, is_late, late_edge, end_break, broken_in};
ghost use Rattle.log_file.specs.File.{NoRecord};
ghost use Rattle.log_file.specs.Counts.{headers_of, Walks, IsWalked, IsTallied};

use crate::head::tail;
use bn_base::{HARTS, Settings};
use log_order::walk::{any_unfinished, is_late, step};
use log_order::{HartView, OrderBreak, OrderLimits, OrderRule};
use log_record::laws::tags_tell_sizes;
use log_record::{Record, read_as, size};

/// What is counted of a log.
#[derive(Clone, Copy, Debug, Drop)]
pub struct LogCounts {
    /// How many records it keeps.
    pub records: u64,
    /// How many of them are Headers.
    pub intervals: u64,
    /// How many records were given up before them.
    pub dropped: u64,
    /// How many bytes the kept records have.
    pub bytes: u64,
}

/// What a walk along records found: how many they are, how many of them are Headers, and the first
/// of them that breaks a rule.
#[derive(Clone, Copy, Drop)]
pub struct Walked {
    records: u64,
    headers: u64,
    broken: Option<OrderBreak>,
}

/// What is counted of records, and the first break of their order.
#[derive(Clone, Copy, Drop)]
pub struct Tally {
    /// What is counted of them.
    pub counts: LogCounts,
    /// The first break of their order; `None` if they are in order.
    pub broken: Option<OrderBreak>,
}

/// How many Headers a record is: one, or none.
pub fn headers_of(entry: &Record) -> u64
    ensures value { result ≡ headers_of entry.now }
    ensures few { result ≤ 1 }
{
    match entry {
        Record::Header { .. } => 1,
        Record::FirstLoad { .. } => 0,
        Record::ScOk { .. } => 0,
        Record::ScFailed { .. } => 0,
        Record::Edge { .. } => 0,
        Record::End { .. } => 0,
    }
}

// The first break after one more record, which begins at a place. The harts' views change only if there was none.
fn advance(
    terms: &OrderLimits,
    harts: &mut [HartView],
    broken: Option<OrderBreak>,
    at: u64,
    entry: &Record,
) -> Option<OrderBreak>
    ensures { (start : List HartView) (rs : List Record) → at ≡ total rs → Walks (after_all terms.now 0 start rs) broken harts.old → Walks (after_all terms.now 0 start (rs ++ entry.now ∷ [])) result harts.new }
{
    match broken {
        Some(found) => Some(found),
        None => match step(terms, harts, entry) {
            Ok(()) => None,
            Err(rule) => Some(OrderBreak::of(at, rule)),
        },
    }
}

// Walks along the records of a log of this version whose bytes these are. The error is the first place
// at which a record should begin and none does.
fn walk(
    format: u8,
    terms: &OrderLimits,
    harts: &mut [HartView],
    bytes: &[u8],
) -> Result<Walked, u64>
    ensures walked { IfOk result (IsWalked format terms.now harts.old harts.new bytes.now) }
    ensures refused { IfErr result (λ at. NoRecord format bytes.now at) }
{
    let mut records = 0;
    let mut headers = 0;
    let mut broken = None;
    let mut rest = bytes;
    while !rest.is_empty() {
        let at = (bytes.len() - rest.len()) as u64;
        match read_as(format, rest) {
            None => return Err(at),
            Some((entry, size)) => {
                broken = advance(terms, harts, broken, at, &entry);
                records += 1;
                headers += headers_of(&entry);
                rest = tail(rest, size);
            }
        }
    }
    Ok(Walked {
        records,
        headers,
        broken,
    })
}

// The byte that begins an Edge.
const EDGE: u8 = 5;

// Whether some bytes begin with a late Edge.
#[tactic(auto, using(crate::proofs::Walks::not_late))]
fn late_at(format: u8, harts: &[HartView], bytes: &[u8]) -> bool
    requires { 0 < length bytes.now }
    ensures { (r : Record) (rest : List ℕ) → Fits format r → bytes.now ≡ bytes_of r ++ rest → result ≡ is_late harts.now r }
{
    if bytes[0] != EDGE {
        return false;
    }
    match read_as(format, bytes) {
        Some((entry, _)) => is_late(harts, &entry),
        None => false,
    }
}

// The place of the first late Edge among the records of a log of this version whose bytes these are.
fn late_edge(format: u8, harts: &[HartView], bytes: &[u8]) -> Option<u64>
    ensures { (rs : List Record) → AllByRecursion (Fits format) rs → bytes.now ≡ flat_map bytes_of rs → result ≡ late_edge harts.now 0 rs }
{
    tags_tell_sizes();
    let mut rest = bytes;
    while !rest.is_empty() {
        if late_at(format, harts, rest) {
            return Some((bytes.len() - rest.len()) as u64);
        }
        match size(rest[0]) {
            None => return None,
            Some(size) => {
                if rest.len() < size {
                    return None;
                }
                rest = tail(rest, size);
            }
        }
    }
    None
}

// The first break of the two rules about the end. The bytes are those of the records of a log of this
// version, and `harts` are the views after them.
fn end_break(format: u8, all: bool, harts: &[HartView], bytes: &[u8]) -> Option<OrderBreak>
    ensures { (rs : List Record) → AllByRecursion (Fits format) rs → bytes.now ≡ flat_map bytes_of rs → result ≡ end_break all harts.now rs }
{
    if any_unfinished(all, harts) {
        return Some(OrderBreak::of(bytes.len() as u64, OrderRule::HartsDone));
    }
    match late_edge(format, harts, bytes) {
        None => None,
        Some(at) => Some(OrderBreak::of(at, OrderRule::SourcesDone)),
    }
}

// The first break of the order of records, from what a walk along them found: a break of a rule, or
// none and the harts' views at its end.
#[tactic(auto, using(crate::proofs::Walks::breaks_by_rule, crate::proofs::Walks::breaks_at_end))]
fn first_break(
    format: u8,
    all: bool,
    harts: &[HartView],
    found: Option<OrderBreak>,
    bytes: &[u8],
) -> Option<OrderBreak>
    ensures { (rs : List Record) (ran : Result (List HartView) OrderBreak) → AllByRecursion (Fits format) rs → bytes.now ≡ flat_map bytes_of rs → Walks ran found harts.now → result ≡ broken_in all rs ran }
{
    match found {
        Some(found) => Some(found),
        None => end_break(format, all, harts, bytes),
    }
}

/// What is counted of the records with these bytes, of a log of this version with these settings,
/// and the first break of their order. So many records were given up before them. No list of them is
/// made, and no memory is taken. The error is the first place, in bytes from the first record's, at
/// which a record should begin and none does.
pub fn tally_of(format: u8, settings: &Settings, dropped: u64, bytes: &[u8]) -> Result<Tally, u64>
    ensures tallied { IfOk result (IsTallied format settings.now dropped bytes.now) }
    ensures refused { IfErr result (λ at. NoRecord format bytes.now at) }
{
    let all = dropped == 0;
    let mut views = [HartView::fresh(all); HARTS];
    let harts = &mut views[..settings.harts() as usize];
    let walked = walk(format, &OrderLimits::of(settings), harts, bytes)?;
    let broken = first_break(format, all, harts, walked.broken, bytes);
    let counts = LogCounts {
        records: walked.records,
        intervals: walked.headers,
        dropped,
        bytes: bytes.len() as u64,
    };
    Ok(Tally { counts, broken })
}
