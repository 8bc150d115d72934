//! Which points are ordered before a point.
ghost use Rattle.std.specs.Prelude.{◌≡◌, ◌<◌, ◌≤◌, ◌+◌, ◌^◌, ◌==◌, ℕ, List, IsTrue, OnOk, IfOk, if◌then◌else◌};
ghost use Rattle.bn_base.specs.declared.settings.TheConstants.{HARTS};
ghost use Rattle.race_report.specs.Common.{count_of, Point, after, is_write, RepresentsAccesses, harts_of, next_turn, next_count, lasts, lasting_of};
ghost use Rattle.race_log.specs.ByCount.{IsTimesOf};
ghost use Rattle.race_report.specs.Points.{IsTouch};
ghost use Rattle.race_report.specs.Gathering.{everyone, sync_of};

use crate::touch::Touch;
use bn_base::HartId;
use race_log::{Mode, Shadow};
use std::alloc::AllocError;
use vector_time::Times;

// The mode of an access.
fn mode_of(writes: bool) -> Mode
    ensures { is_write result ≡ writes }
{
    if writes { Mode::Write } else { Mode::Read }
}

// How many words of a point count: its one word if it is a sync point.
fn counted(syncs: bool) -> u32
    ensures { result ≡ (if syncs then 1 else 0) }
{
    if syncs { 1 } else { 0 }
}

/// Takes in a point, and answers how many of each hart's points are ordered before it. A point that isn't
/// a sync point counts as one that accesses nothing.
pub(crate) fn reach(
    shadow: &mut Shadow,
    hart: HartId,
    place: u32,
    touch: Touch,
) -> Result<Times, AllocError>
    requires whole { IsTouch touch }
    requires hart { hart < harts_of shadow.old }
    requires few { harts_of shadow.old ≤ HARTS }
    requires turn { next_turn shadow.old ≤ place }
    requires count { next_count shadow.old hart ≤ place }
    requires lasting { IsTrue (lasts shadow.old hart) }
    ensures stands { OnOk result ((run : List Point) → RepresentsAccesses run everyone shadow.old → RepresentsAccesses (after run (sync_of hart place touch)) everyone shadow.new) }
    ensures known { IfOk result (λ known. (run : List Point) → RepresentsAccesses run everyone shadow.old → IsTimesOf (after run (sync_of hart place touch)) (sync_of hart place touch) (count_of known)) }
    ensures harts { OnOk result (harts_of shadow.new ≡ harts_of shadow.old) }
    ensures lasting { OnOk result (lasting_of shadow.new ≡ lasting_of shadow.old) }
    ensures turn { OnOk result (next_turn shadow.new ≡ place + 1) }
    ensures counts { OnOk result ((h : ℕ) → next_count shadow.new h ≡ (if h == hart then place + 1 else next_count shadow.old h)) }
{
    let count = counted(touch.syncs);
    let turn = u64::from(place);
    shadow.reserve(touch.first, count)?;
    shadow.access(hart, turn, turn, touch.first, count, mode_of(touch.writes));
    Ok(*shadow.times(hart))
}
