//! Laws of turns: each moves on within its budget, and records decide nothing. `run_laws` and `bus_core` build on them.
ghost use Rattle.run_model.specs.Counts.{EachTurnMovesOn, EachTurnFits, OthersStayFit, GuardedAsksFit};
ghost use Rattle.run_model.specs.Guards.{FormatOneIsUnguarded, RecordsDecideNothing};

use system_calls::exits_alone_end;

/// The turn of a live hart's orderly ask moves on within its budget: by one instruction if it
/// accesses memory, and by some if the hart continues.
pub fn each_turn_moves_on()
    ensures { EachTurnMovesOn }
{
    exits_alone_end();
}

/// After such a turn the hart's counts stay within the settings, and fewer turns are left to it.
#[tactic(auto, using(crate::proofs::Fits::fit_after, crate::proofs::Fits::fewer_left))]
pub fn each_turn_fits()
    ensures { EachTurnFits }
{}

/// The other harts stay within the settings too, and no more turns are left to them.
#[tactic(auto, using(crate::proofs::Fits::fit_other, crate::proofs::Fits::no_more_left))]
pub fn others_stay_fit()
    ensures { OthersStayFit }
{}

/// A guarded ask fits the hart that begins its next interval in the ask's state: it is orderly there too,
/// and no more turns are left to it.
#[tactic(auto, using(crate::proofs::Fits::guarded_fits))]
pub fn guarded_asks_fit()
    ensures { GuardedAsksFit }
{}

/// With format 1 no ask is guarded, and all rows of a turn are of one interval.
#[tactic(auto, using(crate::proofs::Served::format_one))]
pub fn format_1_is_unguarded()
    ensures { FormatOneIsUnguarded }
{}

/// The records themselves decide nothing: the machine, harts, caches, points, turns and number of bytes
/// do.
#[tactic(auto, using(crate::proofs::Served::alike))]
pub fn records_decide_nothing()
    ensures { RecordsDecideNothing }
{}
