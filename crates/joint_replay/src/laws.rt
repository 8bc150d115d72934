//! Laws of joint replays. These functions do nothing: their contracts are theorems.
ghost use Rattle.joint_replay.specs.Laws.{RowsGoOn, StepsPass, OrderedLogsHaveShape, EdgesAreInside, EdgesAscend, PointsAscend};
ghost use Rattle.joint_replay.specs.Laws.{StartsAreSound, SoundnessStays, ChainsAreKept, NeverStuck};
ghost use Rattle.joint_replay.specs.Runs.{RunsGoOn, RunsEnd};
ghost use Rattle.joint_replay.specs.Firsts.{RunsByStep};
ghost use Rattle.joint_replay.specs.Merges.{PointsAreNamed, SourcesAreThere, WalksAreMerges, ReadyIsAdmitted, PassedIsStanding};

use rv_meaning::each_instruction_is_counted_or_asks;

/// Rows to come have the counts from the hart's state on, one after another.
#[tactic(auto, using(crate::proofs::RowsAre::rows_go_on))]
pub fn the_rows_go_on()
    ensures { RowsGoOn }
{
    each_instruction_is_counted_or_asks();
}

/// A step passes its own point alone.
#[tactic(auto, using(crate::proofs::LaneSteps::steps_pass))]
pub fn steps_pass_their_points()
    ensures { StepsPass }
{}

/// A step of a ready hart keeps the sources of passed targets passed.
#[tactic(auto, using(crate::proofs::Soundness::soundness_stays))]
pub fn soundness_stays()
    ensures { SoundnessStays }
{
    steps_pass_their_points();
}

/// In every allowed order chains of program order and kept Edges are kept.
pub fn chains_are_kept()
    ensures { ChainsAreKept }
{
    steps_pass_their_points();
}

/// No order gets stuck if instructions have times that the Edges follow.
#[tactic(auto, using(crate::proofs::Descent::never_stuck))]
pub fn no_order_gets_stuck()
    ensures { NeverStuck }
{}

/// A run is its first step, and the run after it.
pub fn runs_go_on()
    ensures { RunsGoOn }
{}

/// If no step is taken, the run ends.
#[tactic(auto, using(crate::proofs::Onward::runs_end))]
pub fn runs_end()
    ensures { RunsEnd }
{}

/// The intervals of a hart in a log in order come one after another.
#[tactic(auto, using(crate::proofs::Shapes::have_shape))]
pub fn ordered_logs_have_shape()
    ensures { OrderedLogsHaveShape }
{}

/// Ordering points ascend, and have each target of an Edge below the first Header's count.
#[tactic(auto, using(crate::proofs::PointLists::points_ascend))]
pub fn ordering_points_ascend()
    ensures { PointsAscend }
{}

/// Edges into a hart lead to its intervals, or below the first of them.
#[tactic(auto, using(crate::proofs::Insides::edges_are_inside))]
pub fn edges_lead_into_intervals()
    ensures { EdgesAreInside }
{}

/// The Edges into a hart have ascending targets.
#[tactic(auto, using(crate::proofs::Ascents::edges_ascend))]
pub fn edges_ascend()
    ensures { EdgesAscend }
{}

/// The joint replay of a log in order begins sound.
#[tactic(auto, using(crate::proofs::Begins::starts_sound))]
pub fn starts_are_sound()
    ensures { StartsAreSound }
{
    each_instruction_is_counted_or_asks();
    the_rows_go_on();
    ordered_logs_have_shape();
    edges_lead_into_intervals();
    ordering_points_ascend();
}

/// A run is the step of the lowest ready hart, and the run after it. It ends if that step is refused,
/// if none is ready, or if all are done.
#[tactic(auto, using(crate::proofs::Firsts::runs_by_step))]
pub fn runs_go_by_steps()
    ensures { RunsByStep }
{}

/// Ordering points are just those that kept Edges name below the first Header's count.
pub fn ordering_points_are_named()
    ensures { PointsAreNamed }
{}

/// Each source of a kept Edge is an ordering point, or an instruction of a retained interval.
pub fn sources_are_there()
    ensures { SourcesAreThere }
{
    each_instruction_is_counted_or_asks();
    the_rows_go_on();
    ordered_logs_have_shape();
    ordering_points_ascend();
}

/// Walks are the merges of the harts' lists in which each point stands after the sources of the Edges into it.
#[tactic(auto, using(crate::proofs::Merged::walks_are_merges))]
pub fn walks_are_merges()
    ensures { WalksAreMerges }
{
    steps_pass_their_points();
    starts_are_sound();
    sources_are_there();
}

/// The harts that are ready are those whose next item a merge that respects the Edges admits.
pub fn ready_harts_are_admitted()
    ensures { ReadyIsAdmitted }
{
    steps_pass_their_points();
    starts_are_sound();
    sources_are_there();
}

/// In a merge that respects the Edges, the source of a kept Edge stands if and only if it is passed.
#[tactic(auto, using(crate::proofs::Merged::passed_is_standing))]
pub fn passed_sources_stand()
    ensures { PassedIsStanding }
{
    steps_pass_their_points();
    starts_are_sound();
    sources_are_there();
}
