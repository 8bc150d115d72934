//! Laws of race reports of recordings: they say of the recorded run which of its conflicting accesses no
//! synchronisation ordered. These functions do nothing: their contracts are theorems.
#![tactic(auto)]

ghost use Rattle.report_laws.specs.Laws.{PointsAreRecorded, StandAsRecorded, ConflictsStandAsRecorded, RacesSayTheRun, ReportsSayTheRun};

mod examples;

use elf_loader::laws::loaded_programs_are_images;
pub use examples::{a_recorded_relay_has_its_races, points_apart_may_change_places};
use file_laws::{files_say_the_run, streams_are_in_order};
use joint_laws::{joint_replays_say_the_run, own_logs_are_logs, what_was_done_is_retained};
use log_order::laws::order_stays_without_the_first_records;
use race_laws::points_are_in_order;
use race_log::points_stand_by_counts;
use race_report::laws::{
    points_are_counted, races_are_listed, races_ascend, races_go_by_conflicts,
};
use replay_laws::the_rows_of_a_hart_are_counted;
use row_laws::{
    points_are_of_turns, rows_tell_runs, run_calls_access, run_rows_tell_words, turn_rows_are_rows,
};

/// Each point that the joint replay of a log of a recording does is a point of the run, with the same
/// accesses.
#[tactic(auto, using(crate::proofs::Alike::points_are_recorded))]
pub fn points_are_recorded()
    ensures { PointsAreRecorded }
{
    joint_replays_say_the_run();
    loaded_programs_are_images();
    run_calls_access();
    run_rows_tell_words();
}

/// The recorded points stand in the order of the run. The joint replay of a log has them all, and those that
/// conflict stand in it as they were recorded.
pub fn points_stand_as_recorded()
    ensures order { StandAsRecorded }
    ensures conflicts { ConflictsStandAsRecorded }
{
    points_are_recorded();
    joint_replays_say_the_run();
    what_was_done_is_retained();
    points_are_in_order();
    points_stand_by_counts();
    points_are_of_turns();
    turn_rows_are_rows();
    the_rows_of_a_hart_are_counted();
}

/// The races of the joint replay of a log of a recording are those of the retained points as they stand in
/// the run.
pub fn races_say_the_run()
    ensures { RacesSayTheRun }
{
    points_are_counted();
    races_are_listed();
    races_ascend();
    races_go_by_conflicts();
    streams_are_in_order();
    order_stays_without_the_first_records();
    points_stand_as_recorded();
    joint_replays_say_the_run();
    points_are_in_order();
    points_stand_by_counts();
    turn_rows_are_rows();
    rows_tell_runs();
}

/// The races that a report lists are those of the retained points as they stand in the run, if the log's
/// bytes are those of the recording's file.
#[tactic(auto, using(crate::proofs::Whole::reports_say_the_run))]
pub fn reports_say_the_run()
    ensures { ReportsSayTheRun }
{
    races_say_the_run();
    own_logs_are_logs();
    files_say_the_run();
}
