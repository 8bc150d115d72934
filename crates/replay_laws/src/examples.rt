//! Small recordings, replayed.
ghost use Rattle.std.specs.Prelude.{◌≡◌, ◌∷◌, [], map, Some, None};
ghost use Rattle.replay_laws.specs.Common.{Done, Refused, replayed, NoInterval, LoadMissing, ScMissing, RecordsLeft, EndDiffers, mark, recorded, program_of, first_header, end, an_exit, two_loads_of_a_word, a_conditional_store, a_fault, a_filled_word, a_guarded_load, a_late_fault, a_late_fault_unguarded, row_of_a_fault};
ghost use Rattle.log_record.specs.declared.record.Record.TheVariants.{FirstLoad};
ghost use Rattle.replay_laws.specs.Examples.{replay_of, a_short_log, without, another_exit};

/// A load that faults: its row, at the End's count.
#[tactic(auto, using(crate::proofs::Worked::a_fault_is_replayed))]
pub fn a_fault_is_replayed()
    ensures { replay_of a_fault 0 0 ≡ record { rows = row_of_a_fault ∷ []; outcome = Done } }
{}

/// A word that another hart's system call filled between two loads of it.
#[tactic(auto, using(crate::proofs::Worked::a_filled_word_is_loaded_again))]
pub fn a_filled_word_is_loaded_again()
    ensures { map (λ r. r.load) (replay_of a_filled_word 0 0).rows ≡ None ∷ None ∷ Some (0x20000, 0) ∷ Some (0x20000, 2054781047) ∷ None ∷ None ∷ [] }
{}

/// An interval that a system call began, in a log that keeps no more than that.
#[tactic(auto, using(crate::proofs::Worked::the_last_interval_is_replayed, crate::proofs::Worked::the_first_interval_is_gone))]
pub fn the_last_interval_is_replayed()
    ensures last { map (λ r. r.ic) (replay_of a_short_log 0 1).rows ≡ 3 ∷ 4 ∷ [] }
    ensures first { replay_of a_short_log 0 0 ≡ record { rows = []; outcome = Refused (NoInterval 0 0) } }
{}

/// With format 2 a load that is guarded is a row of the interval that begins at it. The log has no room
/// for the interval before.
#[tactic(auto, using(crate::proofs::Worked::a_guarded_load_has_its_rows, crate::proofs::Worked::a_guarded_load_is_done, crate::proofs::Worked::the_interval_before_is_gone))]
pub fn a_guarded_load_is_replayed()
    ensures rows { map (λ r. r.ic) (replay_of a_guarded_load 0 1).rows ≡ 10 ∷ 11 ∷ [] }
    ensures done { (replay_of a_guarded_load 0 1).outcome ≡ Done }
    ensures first { replay_of a_guarded_load 0 0 ≡ record { rows = []; outcome = Refused (NoInterval 0 0) } }
{}

/// A fault of a hart that began long ago. With format 2 an interval begins right before the fault, so the
/// log keeps it; with format 1 it is lost.
#[tactic(auto, using(crate::proofs::Worked::a_late_fault_has_its_row, crate::proofs::Worked::a_late_fault_is_done, crate::proofs::Worked::a_late_fault_is_lost))]
pub fn a_late_fault_is_replayed()
    ensures rows { map (λ r. r.ic) (replay_of a_late_fault 1 1).rows ≡ 2 ∷ [] }
    ensures done { (replay_of a_late_fault 1 1).outcome ≡ Done }
    ensures lost { replay_of a_late_fault_unguarded 1 0 ≡ record { rows = []; outcome = Refused (NoInterval 1 0) } }
{}

/// A load whose word no record gives, and a store-conditional without its record.
#[tactic(auto, using(crate::proofs::Worked::a_load_is_missing, crate::proofs::Worked::a_conditional_is_missing))]
pub fn a_lost_record_is_missed()
    ensures load { (replayed (program_of two_loads_of_a_word) (without 2 two_loads_of_a_word) 0 0).outcome ≡ Refused (LoadMissing 0 1 0x20000) }
    ensures conditional { (replayed (program_of a_conditional_store) (without 3 a_conditional_store) 0 0).outcome ≡ Refused (ScMissing 0 2) }
{}

/// A first load that no load reaches is left.
#[tactic(auto, using(crate::proofs::Worked::a_record_is_left))]
pub fn a_record_too_many_is_left()
    ensures { (replayed (program_of an_exit) (first_header an_exit 0 ∷ FirstLoad 0 0 7 ∷ end 0 3 3 5 ∷ []) 0 0).outcome ≡ Refused (RecordsLeft 0 1) }
{}

/// Another program ends otherwise than the log says.
#[tactic(auto, using(crate::proofs::Worked::an_end_differs))]
pub fn another_program_ends_otherwise()
    ensures { (replayed (program_of another_exit) (recorded an_exit).stream 0 0).outcome ≡ Refused (EndDiffers 0 (mark 3 3 5) (mark 3 3 6)) }
{}
