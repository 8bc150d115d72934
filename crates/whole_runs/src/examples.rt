//! Schedules, worked out by hand. These functions do nothing: their contracts are theorems.
ghost use Rattle.std.specs.Prelude.{◌≡◌, ◌∷◌, []};
ghost use Rattle.bn_outside.specs.declared.schedule.Manner.TheVariants.{Bursts, Sleeper};
ghost use Rattle.whole_runs.specs.Examples.{followers, takers};

/// A burst ends after its turns, or with its hart. Number 2 draws 1 turn of hart 1; 4 of hart 2, which is over after 3; 2 of
/// hart 0; hart 0 again, which is over after 1; and at last hart 1.
#[tactic(auto, unfolding(run_model::specs::Turn::serve))]
pub fn bursts_are_drawn()
    ensures { takers Bursts 2 ≡ 1 ∷ 2 ∷ 2 ∷ 2 ∷ 0 ∷ 0 ∷ 0 ∷ 1 ∷ 1 ∷ [] }
{}

/// A sleeper takes no turn, unless only it is live. Number 1 lets hart 2 sleep for 5 turns and then for 60 more.
#[tactic(auto, unfolding(run_model::specs::Turn::serve))]
pub fn a_sleeper_is_drawn()
    ensures { takers Sleeper 1 ≡ 0 ∷ 0 ∷ 1 ∷ 0 ∷ 1 ∷ 1 ∷ 2 ∷ 2 ∷ 2 ∷ [] }
{}

/// A list is followed up to the first turn of a hart that is over, here the fourth of hart 2. After it seed 0 draws: hart 1,
/// hart 0, and so on. A list of all turns is followed to its end.
#[tactic(auto, unfolding(run_model::specs::Turn::serve))]
pub fn a_list_is_followed()
    ensures cut { followers (2 ∷ 2 ∷ 2 ∷ 2 ∷ 0 ∷ []) ≡ 2 ∷ 2 ∷ 2 ∷ 1 ∷ 0 ∷ 1 ∷ 0 ∷ 1 ∷ 0 ∷ [] }
    ensures whole { followers (1 ∷ 2 ∷ 0 ∷ 0 ∷ 2 ∷ 1 ∷ 2 ∷ 1 ∷ 0 ∷ []) ≡ 1 ∷ 2 ∷ 0 ∷ 0 ∷ 2 ∷ 1 ∷ 2 ∷ 1 ∷ 0 ∷ [] }
{}
