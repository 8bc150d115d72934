//! Laws of race reports. These functions do nothing: their contracts are theorems.
ghost use Rattle.race_report.specs.Laws.{TestsSayRaces, PointsAreCounted, RacesAreListed, PointsHaveOwnRows, RacesAscend, ReportsAscend, RacesGoByConflicts};

use joint_replay::laws::{
    runs_go_by_steps, soundness_stays, starts_are_sound, steps_pass_their_points,
};
use race_log::tests_decide;

/// The tests that compute say what a race is.
pub fn tests_say_races()
    ensures { TestsSayRaces }
{
    tests_decide();
}

/// In the joint replay of a log in order each point is of one of its harts, and a hart's points come by
/// their counts. So the places of points order a hart's points as their counts do.
#[tactic(auto, using(crate::proofs::Counted::points_are_counted))]
pub fn points_are_counted()
    ensures { PointsAreCounted }
{
    runs_go_by_steps();
    steps_pass_their_points();
    soundness_stays();
    starts_are_sound();
}

/// The list of all races has each pair of points that is a race, with its word, and nothing else.
#[tactic(auto, using(crate::proofs::Listed::races_are_listed))]
pub fn races_are_listed()
    ensures { RacesAreListed }
{
    tests_say_races();
}

/// The list of all races ascends by hart and count of the first and then of the second; so each race is in
/// it once.
#[tactic(auto, using(crate::proofs::Ascending::races_ascend))]
pub fn races_ascend()
    ensures { RacesAscend }
{}

/// In the joint replay of any log the row of each point has the point's hart.
#[tactic(auto, using(crate::proofs::OwnRows::points_have_own_rows))]
pub fn points_have_own_rows()
    ensures { PointsHaveOwnRows }
{}

/// The report of each log in order ascends, and so has each race once. A log may be in order and no recording's.
pub fn reports_ascend()
    ensures { ReportsAscend }
{
    points_are_counted();
    points_have_own_rows();
    races_ascend();
}

/// Two orders of the same points with the same order of conflicting points have the same list of races.
#[tactic(auto, using(crate::proofs::Alike::races_go_by_conflicts))]
pub fn races_go_by_conflicts()
    ensures { RacesGoByConflicts }
{
    races_are_listed();
    races_ascend();
}
