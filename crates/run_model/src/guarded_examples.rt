//! Small recordings of format 2, worked out by hand, in logs that are smaller than those of settings in
//! range: these are of the definitions alone.
#![tactic(auto, unfolding(crate::specs::Turn::serve, log_ring::specs::Kept::kept, race_log::specs::Tests::at_places, race_log::specs::Tests::leads, race_log::specs::Tests::any_below, race_log::specs::Tests::before, race_log::specs::Tests::edge, race_log::specs::Tests::greatest_first, race_log::specs::Tests::edges_into, le_numbers::specs::Numbers::number_bytes))]

ghost use Rattle.std.specs.Prelude.{◌≡◌, ◌∷◌, [], map};
ghost use Rattle.run_model.specs.Common.{total, tag_of, FirstLoad};
ghost use Rattle.run_model.specs.Examples.{recorded, is_whole, first_header, end, Begins, Ends, marked, marks_of_two_ends_a_turn, a_guarded_load, an_unguarded_load, a_late_fault, two_ends_a_turn};
ghost use Rattle.run_model.specs.Examples.{a_guarded_first_fault, kept_records, counts_in, bytes_after_the_load, a_write_by_hart_1};

/// Once more than half of the log's bytes are from the Header on, the next load is guarded: its interval
/// ends ahead of it, and its own record is in the next one.
pub fn a_load_is_guarded()
    ensures marks { marked (recorded a_guarded_load).stream ≡ Begins 0 0 0 ∷ Ends 0 10 6 0 ∷ Begins 0 1 10 ∷ Ends 0 12 7 0 ∷ [] }
    ensures size { total (recorded a_guarded_load).stream ≡ 362 }
    ensures whole { is_whole a_guarded_load }
{}

/// With format 1 no ask is guarded.
pub fn a_load_is_not_guarded_in_format_1()
    ensures stream { (recorded an_unguarded_load).stream ≡ first_header an_unguarded_load 0 ∷ FirstLoad 0 0 0 ∷ FirstLoad 0 0 0 ∷ FirstLoad 0 0 0 ∷ FirstLoad 0 0 0 ∷ end 0 12 7 0 ∷ [] }
{}

/// The quiet instructions of a guarded turn are rows of the interval that it ends; the asking one is a
/// row of the next.
pub fn the_rows_of_a_guarded_turn_are_parted()
    ensures first { counts_in a_guarded_load 0 0 ≡ 0 ∷ 1 ∷ 2 ∷ 3 ∷ 4 ∷ 5 ∷ 6 ∷ 7 ∷ 8 ∷ 9 ∷ [] }
    ensures second { counts_in a_guarded_load 0 1 ≡ 10 ∷ 11 ∷ [] }
{}

/// A fault of a hart that began long ago: its next interval begins just ahead of the fault, and so it is kept.
pub fn a_late_fault_is_kept()
    ensures marks { marked (kept_records a_late_fault) ≡ Ends 0 5 6 0 ∷ Begins 0 1 5 ∷ Ends 1 2 6 0 ∷ Begins 1 1 2 ∷ Ends 1 2 21 0 ∷ Ends 0 33 5 0 ∷ [] }
    ensures size { total (kept_records a_late_fault) ≡ 462 }
    ensures whole { is_whole a_late_fault }
{}

/// One turn ends two intervals: the one before its ask, by the guard, and the ask's own, by its length or
/// its exit.
pub fn a_turn_ends_two_intervals()
    ensures marks { marked (recorded two_ends_a_turn).stream ≡ marks_of_two_ends_a_turn }
    ensures tags { map tag_of (recorded two_ends_a_turn).stream ≡ 1 ∷ 6 ∷ 1 ∷ 6 ∷ 1 ∷ 2 ∷ 6 ∷ 1 ∷ 6 ∷ 1 ∷ 6 ∷ 1 ∷ 6 ∷ [] }
    ensures empty { counts_in two_ends_a_turn 0 1 ≡ [] }
    ensures own { counts_in two_ends_a_turn 0 2 ≡ 1 ∷ [] }
    ensures whole { is_whole two_ends_a_turn }
{}

/// A hart whose first ask is guarded and faults is over with number 1 at count 0.
pub fn a_number_can_pass_twice_the_count()
    ensures marks { marked (recorded a_guarded_first_fault).stream ≡ Begins 0 0 0 ∷ Begins 1 0 0 ∷ Ends 0 0 6 0 ∷ Begins 0 1 0 ∷ Ends 0 0 21 1048576 ∷ Ends 1 1 5 0 ∷ [] }
    ensures number { ((recorded a_guarded_first_fault).harts 0).number ≡ 1 }
    ensures count { ((recorded a_guarded_first_fault).harts 0).state.ic ≡ 0 }
    ensures whole { is_whole a_guarded_first_fault }
{}

/// Two runs with the same machine, harts, caches and bytes can have other bytes after the same turn, since
/// their points differ: what the guard looks at depends on the points too.
pub fn edges_move_the_guard()
    ensures without { bytes_after_the_load [] ≡ 302 }
    ensures with { bytes_after_the_load a_write_by_hart_1 ≡ 321 }
{}
