//! Laws of lists of turns. These functions do nothing: their contracts are theorems.
ghost use Rattle.whole_runs.specs.Laws.{SeededListsEnd, ScheduledListsEnd, RowsNameTheirHarts, WholeRunsHaveNoError};
ghost use Rattle.whole_runs.specs.Followed.{WholeListsAreFollowed};

use run_laws::runs_end;

/// The list that a number gives names a live hart at each turn, and leaves no hart live: it has a draw for
/// each turn that a run can take.
pub fn seeded_lists_end()
    ensures { SeededListsEnd }
{
    runs_end();
}

/// The list of a schedule names a live hart at each turn, and leaves no hart live: one that a number draws,
/// and one that follows a given list.
pub fn scheduled_lists_end()
    ensures { ScheduledListsEnd }
{
    runs_end();
}

/// The harts of the rows of a list of turns are that list.
#[tactic(auto, using(crate::proofs::Rows::rows_name))]
pub fn rows_name_their_harts()
    ensures { RowsNameTheirHarts }
{}

/// A list of turns has no error exactly if each of its harts is live at its turn and none is after the
/// last.
#[tactic(auto, using(crate::proofs::Errors::no_error))]
pub fn whole_runs_have_no_error()
    ensures { WholeRunsHaveNoError }
{}

/// A run that follows a legal and finished list has that list.
#[tactic(auto, using(crate::proofs::Follows::whole_followed))]
pub fn whole_lists_are_followed()
    ensures { WholeListsAreFollowed }
{}
