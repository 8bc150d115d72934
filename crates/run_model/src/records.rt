//! The records of a turn, and the log that takes them.
ghost use Rattle.std.specs.Prelude.{◌≡◌, ◌≤◌, ◌<◌, ◌+◌, ◌*◌, ◌^◌, ◌∷◌, ◌++◌, [], ℕ, List, length, take, IsTrue, IfOk};
ghost use Rattle.run_model.specs.Common.{Record, End, FirstLoad, is_mark, is_marked, held};
ghost use Rattle.run_model.specs.Turn.{edges_from, load_record, sc_record, header, mark, next_records};
ghost use Rattle.run_model.specs.Represents.Logs.{taken, Took, IsLog, is_marked_next};

use crate::log::Log;
use crate::turn_end::TurnEnd;
use bn_base::{EndMark, HartId, HartState, Ic};
use first_load_bits::Warm;
use le_numbers::laws::numbers_have_their_width;
use log_record::Record;
use log_ring::{Intake, Ring};
use race_log::Edges;
use rv_meaning::Reply;
use std::alloc::{AllocError, Global};

impl Log {
    /// An empty log that keeps up to `size` bytes of records. The only error is out of memory.
    pub fn new(alloc: Global, size: usize) -> Result<Log, AllocError>
        requires { 146 ≤ size }
        ensures ring { IfOk result (λ l. l.ring ≡ held [] 0 size) }
        ensures bytes { IfOk result (λ l. l.bytes ≡ 0) }
    {
        Ok(Log {
            ring: Intake::new(Ring::new(alloc, size)?),
            bytes: 0,
        })
    }

    /// Takes a record. It takes no memory.
    pub fn append(&mut self, entry: &Record)
        requires marked { IsTrue (is_marked 2 entry.now) }
        requires room { taken self.old.ring < 2 ^ 56 }
        ensures holds { (rs : List Record) → IsLog self.old rs → IsLog self.new (rs ++ entry.now ∷ []) }
        ensures took { Took self.old 1 self.new }
    {
        self.bytes += entry.size() as u64;
        self.ring.append(entry);
    }
}

// Appends the Edge into instruction `ic` of a hart from source number `i`.
#[inline(never)]
fn append_edge(log: &mut Log, hart: HartId, ic: Ic, edges: &Edges, i: usize)
    requires there { i < length edges.now }
    requires room { taken log.old.ring < 2 ^ 56 }
    ensures holds { (rs : List Record) → IsLog log.old (rs ++ edges_from hart ic (take i edges.now)) → IsLog log.new (rs ++ edges_from hart ic (take (i + 1) edges.now)) }
    ensures took { Took log.old 1 log.new }
{
    numbers_have_their_width();
    match edges.get(i) {
        None => unreachable!(),
        Some((from, from_ic)) => {
            log.bytes += 19;
            log.ring.append_edge(hart, ic, from, from_ic);
        }
    }
}

/// Appends the Edges into instruction `ic` of a hart, at most 16.
#[inline(always)]
pub fn append_edges(log: &mut Log, hart: HartId, ic: Ic, edges: &Edges)
    requires room { taken log.old.ring + length edges.now < 2 ^ 56 }
    ensures holds { (rs : List Record) → IsLog log.old rs → IsLog log.new (rs ++ edges_from hart ic edges.now) }
    ensures took { Took log.old (length edges.now) log.new }
{
    for i in 0..edges.count() {
        append_edge(log, hart, ic, edges, i);
    }
}

// Appends a FirstLoad.
#[inline(never)]
fn append_first_load(log: &mut Log, hart: HartId, skipped: u32, word: u32)
    requires room { taken log.old.ring + 1 < 2 ^ 56 }
    ensures holds { (rs : List Record) → IsLog log.old rs → IsLog log.new (rs ++ FirstLoad hart skipped word ∷ []) }
    ensures took { Took log.old 1 log.new }
{
    numbers_have_their_width();
    log.bytes += 10;
    log.ring.append_first_load(hart, skipped, word);
}

/// Appends a FirstLoad, if the word of a loading access wasn't warm.
#[inline(always)]
pub fn append_load(log: &mut Log, load: Option<Warm>, hart: HartId, skipped: u32, word: u32)
    requires room { taken log.old.ring + 1 < 2 ^ 56 }
    ensures holds { (rs : List Record) → IsLog log.old rs → IsLog log.new (rs ++ load_record load hart skipped word) }
    ensures took { Took log.old (length (load_record load hart skipped word)) log.new }
{
    if let Some(Warm::Cold) = load {
        append_first_load(log, hart, skipped, word);
    }
}

/// Appends how an SC went, if the reply is one to an SC.
pub fn append_conditional(log: &mut Log, reply: Reply, hart: HartId)
    requires room { taken log.old.ring + 1 < 2 ^ 56 }
    ensures holds { (rs : List Record) → IsLog log.old rs → IsLog log.new (rs ++ sc_record reply hart) }
    ensures took { Took log.old (length (sc_record reply hart)) log.new }
{
    match reply {
        Reply::ScOk => log.append(&Record::ScOk { hart }),
        Reply::ScFailed => log.append(&Record::ScFailed { hart }),
        _ => {}
    }
}

/// Appends the End of an interval.
#[inline(never)]
pub fn append_end(log: &mut Log, hart: HartId, ic: Ic, reason: u8, value: u32)
    requires marked { IsTrue (is_mark 2 (mark ic reason value)) }
    requires room { taken log.old.ring + 1 < 2 ^ 56 }
    ensures holds { (rs : List Record) → IsLog log.old rs → IsLog log.new (rs ++ End hart (mark ic reason value) ∷ []) }
    ensures took { Took log.old 1 log.new }
{
    log.append(&Record::End {
        hart,
        mark: EndMark { ic, reason, value },
    });
}

/// Appends the Header of the interval that a hart begins in a state.
#[inline(never)]
pub fn append_header(log: &mut Log, hart: HartId, number: u64, state: &HartState)
    requires room { taken log.old.ring + 1 < 2 ^ 56 }
    ensures holds { (rs : List Record) → IsLog log.old rs → IsLog log.new (rs ++ header hart number state.now ∷ []) }
    ensures took { Took log.old 1 log.new }
{
    log.append(&Record::Header {
        hart,
        interval: number,
        ic: state.ic,
        pc: state.pc,
        x: state.x,
    });
}

/// Appends the End of an interval that a turn ends, and the Header of the one that it begins, by its
/// number.
#[inline(always)]
pub fn append_next(log: &mut Log, next: TurnEnd, hart: HartId, number: u64, state: &HartState)
    requires marked { IsTrue (is_marked_next next) }
    requires room { taken log.old.ring + 2 < 2 ^ 56 }
    requires number { number < 2 ^ 63 }
    ensures holds { (rs : List Record) → IsLog log.old rs → IsLog log.new (rs ++ next_records next hart number state.now) }
    ensures took { Took log.old (length (next_records next hart number state.now)) log.new }
{
    match next {
        TurnEnd::GoesOn => {}
        TurnEnd::NewInterval { reason, value } => {
            append_end(log, hart, state.ic, reason, value);
            append_header(log, hart, number + 1, state);
        }
        TurnEnd::HartOver { reason, value } | TurnEnd::RunOver { reason, value } => {
            append_end(log, hart, state.ic, reason, value)
        }
    }
}
