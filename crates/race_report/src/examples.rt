//! Small logs and their races, worked out by hand.
ghost use Rattle.std.specs.Prelude.{◌≡◌, ◌∷◌, []};
ghost use Rattle.joint_replay.specs.Examples.{filled_word};
ghost use Rattle.race_report.specs.Examples.{relay, passed_message, early_message, reserved_message, missed_message, races_in, count_in};

/// A relay by plain loads and stores: no chain orders any of its conflicts, though each hart saw what the
/// one before it had stored.
#[tactic(auto, using(crate::proofs::Worked::relay_races, crate::proofs::Worked::relay_count))]
pub fn a_relay_has_three_races()
    ensures races { races_in 3 relay ≡ (0, 4, 1, 3, 0x20000) ∷ (0, 4, 2, 5, 0x20000) ∷ (1, 4, 2, 4, 0x20004) ∷ [] }
    ensures count { count_in relay ≡ 3 }
{}

/// A store before an AMO, and a load by another hart after its AMO of the same word: no race if that AMO
/// comes second, and one if it comes first.
#[tactic(auto, using(crate::proofs::Worked::passed_races, crate::proofs::Worked::early_races))]
pub fn an_atomic_passes_a_message()
    ensures passed { races_in 2 passed_message ≡ [] }
    ensures early { races_in 2 early_message ≡ (0, 2, 1, 3, 0x20004) ∷ [] }
{}

/// A message is passed to an LR too, and not to a store-conditional that fails: that accesses nothing.
#[tactic(auto, using(crate::proofs::Worked::reserved_races, crate::proofs::Worked::missed_races))]
pub fn a_failed_conditional_passes_no_message()
    ensures reserved { races_in 2 reserved_message ≡ [] }
    ensures missed { races_in 2 missed_message ≡ (0, 2, 1, 3, 0x20004) ∷ [] }
{}

/// A read call writes the words of its bytes.
#[tactic(auto, using(crate::proofs::Worked::filled_races))]
pub fn a_filled_word_races()
    ensures { races_in 2 filled_word ≡ (0, 2, 1, 6, 0x20000) ∷ (1, 6, 0, 3, 0x20000) ∷ [] }
{}
