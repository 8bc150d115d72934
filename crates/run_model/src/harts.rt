//! What the end of a run does to all harts: it stops them, and appends their Ends.
ghost use Rattle.std.specs.Prelude.{◌≡◌, ◌≤◌, ◌<◌, ◌+◌, ◌*◌, ◌^◌, ◌++◌, ℕ, List, length, slice_set, get_or};
ghost use Rattle.run_model.specs.Common.{Record, HartState};
ghost use Rattle.bn_base.specs.declared.settings.TheConstants.{HARTS};
ghost use Rattle.run_model.specs.declared.hart.Hart.{Hart};
ghost use Rattle.run_model.specs.Turn.{harts_after, hart_after, run_over_records, dead};
ghost use Rattle.run_model.specs.Represents.Harts.{AreHarts, others_after, stopped_below, stopped_at, stop_record, stop_records};
ghost use Rattle.run_model.specs.Represents.Logs.{taken, IsLog};

use crate::hart::Hart;
use crate::log::Log;
use crate::records::append_end;
use crate::turn_end::TurnEnd;
use bn_base::HartId;
use bn_base::end_mark::STOPPED;

// Stops a hart, unless it is the one whose turn ended the run, and appends its End.
fn stop_one(hart: &mut Hart, log: &mut Log, number: HartId, own: HartId)
    requires room { taken log.old.ring + 1 < 2 ^ 56 }
    ensures hart { (harts : ℕ → Hart) → harts number ≡ hart.old → hart.new ≡ stopped_at own harts number }
    ensures holds { (rs : List Record) → IsLog log.old rs → IsLog log.new (rs ++ stop_record own number hart.old) }
    ensures took { taken log.new.ring ≤ taken log.old.ring + 1 }
    ensures size { log.new.ring.size ≡ log.old.ring.size }
{
    if number != own {
        if hart.live {
            append_end(log, number, hart.state.ic, STOPPED, 0);
        }
        hart.stop();
    }
}

// Stops all harts but one, and appends their Ends.
#[inline(never)]
fn stop_others(harts: &mut Vec<Hart>, log: &mut Log, own: HartId)
    requires few { length harts.old.items ≤ HARTS }
    requires room { taken log.old.ring + HARTS < 2 ^ 56 }
    ensures harts { (f : ℕ → Hart) → AreHarts harts.old.items f → AreHarts harts.new.items (stopped_below own (length harts.old.items) f) }
    ensures holds { (f : ℕ → Hart) (rs : List Record) → AreHarts harts.old.items f → IsLog log.old rs → IsLog log.new (rs ++ stop_records own (length harts.old.items) f) }
    ensures took { taken log.new.ring ≤ taken log.old.ring + HARTS }
    ensures size { log.new.ring.size ≡ log.old.ring.size }
    ensures len { length harts.new.items ≡ length harts.old.items }
{
    for number in 0..harts.len() {
        stop_one(&mut harts[number], log, number as HartId, own);
    }
}

/// If a turn ends the run, the other harts are stopped and their Ends appended.
#[inline(always)]
pub fn end_others(harts: &mut Vec<Hart>, log: &mut Log, own: HartId, next: TurnEnd)
    requires few { length harts.old.items ≤ HARTS }
    requires room { taken log.old.ring + HARTS < 2 ^ 56 }
    ensures harts { (f : ℕ → Hart) → AreHarts harts.old.items f → AreHarts harts.new.items (others_after next own f) }
    ensures holds { (f : ℕ → Hart) (rs : List Record) → AreHarts harts.old.items f → IsLog log.old rs → IsLog log.new (rs ++ run_over_records next own (length harts.old.items) f) }
    ensures headed { (s : HartState) (skipped : ℕ) (h : Hart) → hart_after next s skipped log.old.bytes h ≡ hart_after next s skipped log.new.bytes h }
    ensures took { taken log.new.ring ≤ taken log.old.ring + HARTS }
    ensures size { log.new.ring.size ≡ log.old.ring.size }
    ensures len { length harts.new.items ≡ length harts.old.items }
{
    match next {
        TurnEnd::RunOver { .. } => stop_others(harts, log, own),
        TurnEnd::GoesOn | TurnEnd::NewInterval { .. } | TurnEnd::HartOver { .. } => {}
    }
}

/// No hart is live any more.
pub fn end_each(harts: &mut Vec<Hart>)
    ensures each { (k : ℕ) (d : Hart) → k < length harts.old.items → get_or harts.new.items k d ≡ dead (get_or harts.old.items k d) }
    ensures len { length harts.new.items ≡ length harts.old.items }
{
    for number in 0..harts.len() {
        harts[number].end();
    }
}
