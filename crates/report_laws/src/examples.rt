//! Small recordings and their races.
ghost use Rattle.std.specs.Prelude.{◌≡◌, ◌∷◌, []};
ghost use Rattle.run_model.specs.Examples.{a_relay, a_line_lost};
ghost use Rattle.joint_laws.specs.Examples.{a_short_relay};
ghost use Rattle.report_laws.specs.Examples.{recorded_names, replayed_names, recorded_races};

/// A relay by plain loads and stores, as the run did it: no chain orders any of its conflicts. Of a log
/// without the first intervals of such a relay those points are left that its rows have.
#[tactic(auto, using(crate::proofs::Worked::relay))]
pub fn a_recorded_relay_has_its_races()
    ensures names { recorded_names 0 a_relay ≡ (0, 4) ∷ (1, 3) ∷ (1, 4) ∷ (2, 4) ∷ (2, 5) ∷ [] }
    ensures races { recorded_races 0 a_relay ≡ (0, 4, 1, 3, 0x20000) ∷ (0, 4, 2, 5, 0x20000) ∷ (1, 4, 2, 4, 0x20004) ∷ [] }
    ensures late { recorded_names 4 a_short_relay ≡ (0, 4) ∷ (1, 4) ∷ (2, 4) ∷ [] }
    ensures late_races { recorded_races 4 a_short_relay ≡ (1, 4, 2, 4, 0x20004) ∷ [] }
{}

/// The joint replay may do points that don't conflict in another order than the run.
#[tactic(auto, using(crate::proofs::Worked::line_names, crate::proofs::Worked::line_replayed))]
pub fn points_apart_may_change_places()
    ensures run { recorded_names 0 a_line_lost ≡ (0, 2) ∷ (1, 2) ∷ (0, 3) ∷ [] }
    ensures replay { replayed_names 0 a_line_lost ≡ (0, 2) ∷ (0, 3) ∷ (1, 2) ∷ [] }
{}
