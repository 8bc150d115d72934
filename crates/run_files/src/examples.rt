//! Small lists and files that are audited, worked out by hand.
ghost use Rattle.std.specs.Prelude.{◌≡◌, ◌∷◌, [], Some, None};
ghost use Rattle.run_model.specs.declared.error.TurnError.TheVariants.{IllegalTurn, NotFinished};
ghost use Rattle.run_model.specs.Examples.{an_exit, a_line_lost};
ghost use Rattle.run_files.specs.Audits.{DifferFirst, error_in};

/// An exit is one turn. With a second the hart isn't live at turn 1; with none it is live after the last.
#[tactic(auto, unfolding(run_model::specs::Turn::serve))]
pub fn a_list_can_be_too_long_or_too_short()
    ensures whole { error_in an_exit (0 ∷ []) ≡ None }
    ensures long { error_in an_exit (0 ∷ 0 ∷ []) ≡ Some (IllegalTurn 1 0) }
    ensures short { error_in an_exit [] ≡ Some (NotFinished 0) }
{}

/// A hart that isn't there has no turn.
#[tactic(auto, unfolding(run_model::specs::Turn::serve))]
pub fn a_hart_that_is_not_there_has_no_turn()
    ensures { error_in an_exit (1 ∷ 0 ∷ []) ≡ Some (IllegalTurn 0 1) }
{}

/// Of several harts that are live after the last turn the lowest is named.
#[tactic(auto, unfolding(run_model::specs::Turn::serve, race_log::specs::Tests::at_places, race_log::specs::Tests::leads, race_log::specs::Tests::any_below, race_log::specs::Tests::before, race_log::specs::Tests::edge, race_log::specs::Tests::greatest_first, race_log::specs::Tests::edges_into))]
pub fn the_lowest_live_hart_is_named()
    ensures both { error_in a_line_lost (0 ∷ 1 ∷ []) ≡ Some (NotFinished 0) }
    ensures second { error_in a_line_lost (0 ∷ 1 ∷ 0 ∷ 0 ∷ []) ≡ Some (NotFinished 1) }
{}

/// Files differ first at the first byte that differs, or at the end of the shorter one.
pub fn files_differ_at_a_byte_or_an_end()
    ensures byte { DifferFirst (7 ∷ 8 ∷ 9 ∷ []) (7 ∷ 6 ∷ 9 ∷ []) 1 }
    ensures end { DifferFirst (7 ∷ 8 ∷ []) (7 ∷ 8 ∷ 9 ∷ []) 2 }
{}
