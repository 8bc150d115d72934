//! The race log's part of a turn: which Edges it records, and which accesses it may forget.
ghost use Rattle.std.specs.Prelude.{◌≡◌, ◌≤◌, ◌<◌, ◌+◌, ◌^◌, ◌++◌, ◌&&◌, ◌≢◌, ℕ, List, IsTrue, length};
ghost use Rattle.run_model.specs.Common.{Record, Point, RepresentsAccesses, harts_of, lasting_of, lasts, next_turn, next_count};
ghost use Rattle.bn_base.specs.declared.settings.TheConstants.{HARTS};
ghost use Rattle.run_model.specs.Turn.{point_of, points_after, edge_records};
ghost use Rattle.run_model.specs.Represents.Logs.{taken, IsLog};
ghost use Rattle.run_model.specs.Represents.Accessed.{CanNote, IsNoted};
ghost use Rattle.run_model.specs.Represents.Plain.{everyone, IsRaceReady, IsSwept, GivesUpKnown, is_walk_due, is_end, count_after};

use crate::hart::Hart;
use crate::live::live_set;
use crate::log::Log;
use crate::records::append_edges;
use crate::span::Span;
use crate::turn_end::TurnEnd;
use bn_base::{HartId, Ic};
use race_log::Shadow;

/// The race log takes in the words that a hart's instruction `ic` accesses in this turn, and the log
/// the Edges into it.
#[inline(always)]
pub fn record_access(
    shadow: &mut Shadow,
    log: &mut Log,
    hart: HartId,
    ic: Ic,
    turn: u64,
    span: Option<Span>,
)
    requires can { CanNote shadow.old turn hart ic span }
    requires room { taken log.old.ring + HARTS < 2 ^ 56 }
    ensures noted { IsNoted shadow.old shadow.new turn hart ic span }
    ensures holds { (points : List Point) (rs : List Record) → RepresentsAccesses points everyone shadow.old → IsLog log.old rs → IsLog log.new (rs ++ edge_records (point_of hart ic turn span) points) }
    ensures took { taken log.new.ring ≤ taken log.old.ring + HARTS }
    ensures size { log.new.ring.size ≡ log.old.ring.size }
{
    if let Some(span) = span {
        shadow.access(hart, ic, turn, span.first, span.count, span.mode);
        append_edges(log, hart, ic, shadow.edges());
    }
}

// The race log gives up the accesses that all live harts know of, if the walk is due.
#[inline(never)]
fn sweep_known(shadow: &mut Shadow, harts: &[Hart])
    requires few { length harts.now ≤ HARTS }
    requires harts { harts_of shadow.old ≡ length harts.now }
    ensures swept { IsSwept shadow.old shadow.new harts.now }
    ensures due { GivesUpKnown (is_walk_due shadow.old) shadow.old shadow.new harts.now }
{
    if shadow.is_sweep_due() {
        shadow.sweep(live_set(harts));
    }
}

/// If an interval ended and the walk is due, the race log gives up the accesses that all live harts know of.
// A hart that isn't live then can access nothing any more: so what is kept suffices for the live ones.
#[inline(always)]
pub fn sweep_at_end(shadow: &mut Shadow, harts: &[Hart], next: TurnEnd)
    requires few { length harts.now ≤ HARTS }
    requires harts { harts_of shadow.old ≡ length harts.now }
    ensures swept { IsSwept shadow.old shadow.new harts.now }
    ensures due { GivesUpKnown (is_end next && is_walk_due shadow.old) shadow.old shadow.new harts.now }
{
    match next {
        TurnEnd::GoesOn => {}
        TurnEnd::NewInterval { .. } | TurnEnd::HartOver { .. } | TurnEnd::RunOver { .. } => {
            sweep_known(shadow, harts)
        }
    }
}
