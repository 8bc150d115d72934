//! Laws of joint replays of recordings: what each beginning of each order that a log of a recording
//! allows says of the recorded run. These functions do nothing: their contracts are theorems.
#![tactic(auto)]

ghost use Rattle.joint_laws.specs.Recordings.{OfBeginnings, OfWholeOrders};
ghost use Rattle.joint_laws.specs.Laws.{OwnLogsAreLogs, BeginsSound, KeepsOrder, StandsInOrder, GoesOn, IsNotRefused, HasFirstRows, HasRows, HasStates, HasShownStates, HasMemory, WordsAreByTheSteps, HasWordsOnce, DoesRetained};
ghost use Rattle.joint_laws.specs.Laws.{RunsToTheEnd, JointReplaysSayTheRun, JointFilesSayTheRun, ReachedSayTheRun};
ghost use Rattle.joint_laws.specs.Chains.{ChainsLead};
ghost use Rattle.joint_laws.specs.Filled.{FillsAreFilled};

mod corpus;
mod examples;

pub use corpus::{recordings_of_one_hart_are_joined, recordings_of_several_harts_are_joined};
use elf_loader::laws::loaded_programs_are_images;
pub use examples::{a_relay_has_eighteen_orders, a_spoiled_store_has_ten_orders};
use file_laws::{files_say_the_run, streams_are_in_order};
use joint_replay::laws::{
    chains_are_kept, no_order_gets_stuck, soundness_stays, starts_are_sound,
    steps_pass_their_points,
};
use log_order::laws::order_stays_without_the_first_records;
use race_laws::{
    kept_edges_are_edges, kept_edges_order_conflicts, points_are_in_order,
    replayed_points_are_since_headers,
};
use replay_laws::{ends_suffice, intervals_begin_in_the_run, the_rows_of_a_hart_are_counted};
use row_laws::{
    beginnings_tell_states, interval_rows_are_of_turns, parts_have_code_words, rows_tell_runs,
    rows_that_tell_have_no_fault, run_rows_tell_words, run_writers_have_rows, turn_rows_are_rows,
};
use run_laws::kept_records_are_an_end;

/// What its own log keeps of a recording is a log of it, so all laws here hold of it. They hold as well
/// of a log whose first records are lost, wherever the records that are left begin.
pub fn own_logs_are_logs()
    ensures { OwnLogsAreLogs }
{
    kept_records_are_an_end();
}

/// The joint replay of a log of a recording begins sound: its records are in order.
#[tactic(auto, using(crate::proofs::Said::begins_sound))]
pub fn joint_replays_begin_sound()
    ensures { BeginsSound }
{
    starts_are_sound();
    streams_are_in_order();
    order_stays_without_the_first_records();
}

/// A chain of program order and kept Edges over places of a run is one over instructions by hart and
/// count.
#[tactic(auto, using(crate::proofs::ByCount::chains_lead))]
pub fn chains_lead()
    ensures { ChainsLead }
{}

/// A row fills bytes of an aligned word exactly if the joint memory forgets it.
#[tactic(auto, using(crate::proofs::Filled::fills_are_filled))]
pub fn fills_are_filled()
    ensures { FillsAreFilled }
{}

/// Race order: in each beginning of an allowed order each word's retained writes come as recorded, and
/// each of its retained reads between the same retained writes, by whatever hart. It rests on the kept
/// Edges alone, those through intervals that were dropped among them. In a whole allowed order all of
/// them are done, each once.
pub fn the_race_order_is_kept()
    ensures begun { OfBeginnings KeepsOrder }
    ensures whole { OfWholeOrders StandsInOrder }
{
    steps_pass_their_points();
    soundness_stays();
    joint_replays_begin_sound();
    chains_are_kept();
    points_are_in_order();
    kept_edges_order_conflicts();
    replayed_points_are_since_headers();
    chains_lead();
}

/// Each instruction that was done is of a retained interval.
pub fn what_was_done_is_retained()
    ensures { OfBeginnings DoesRetained }
{
    steps_pass_their_points();
    soundness_stays();
    joint_replays_begin_sound();
}

/// No beginning of an allowed order gets stuck: it is whole, or some hart is ready.
pub fn beginnings_go_on()
    ensures { OfBeginnings GoesOn }
{
    no_order_gets_stuck();
    points_are_in_order();
    kept_edges_are_edges();
}

/// The step of a ready hart is not refused.
pub fn steps_are_not_refused()
    ensures { OfBeginnings IsNotRefused }
{
    ends_suffice();
    interval_rows_are_of_turns();
}

/// The lowest ready hart first, the joint replay goes through a whole allowed order, and isn't stopped.
#[tactic(auto, using(crate::proofs::Steps::run_to_the_end))]
pub fn recordings_run_to_the_end()
    ensures { RunsToTheEnd }
{
    ends_suffice();
    interval_rows_are_of_turns();
    beginnings_go_on();
}

/// Each hart's rows are the first of its retained intervals' part of the run's rows, and all of them in a
/// whole allowed order.
#[tactic(auto, using(crate::proofs::Rows::has_rows))]
pub fn the_rows_are_recorded()
    ensures first { OfBeginnings HasFirstRows }
    ensures all { OfWholeOrders HasRows }
{
    ends_suffice();
    interval_rows_are_of_turns();
}

/// Each row is done from the state that the run had before it, and the state that is shown of a hart is
/// one that it had in the run.
pub fn the_states_are_recorded()
    ensures done { OfBeginnings HasStates }
    ensures shown { OfBeginnings HasShownStates }
{
    ends_suffice();
    interval_rows_are_of_turns();
    intervals_begin_in_the_run();
    beginnings_tell_states();
    rows_tell_runs();
}

/// The word that the joint memory knows at an address is the one that the steps so far tell.
#[tactic(auto, using(crate::proofs::Words::words_are))]
pub fn words_are_by_the_steps()
    ensures { WordsAreByTheSteps }
{}

/// The known words stand by ascending address, each once.
pub fn known_words_ascend()
    ensures { OfBeginnings HasWordsOnce }
{}

/// Each word that the joint memory knows is the run's word right after the latest row that stored or loaded
/// it. No retained write of it that was done came later in the run than that row. Nothing is said of a word
/// that no retained row stored or loaded.
pub fn the_memory_is_recorded()
    ensures { OfBeginnings HasMemory }
{
    steps_pass_their_points();
    soundness_stays();
    rows_that_tell_have_no_fault();
    joint_replays_begin_sound();
    loaded_programs_are_images();
    parts_have_code_words();
    run_rows_tell_words();
    run_writers_have_rows();
    turn_rows_are_rows();
    the_rows_of_a_hart_are_counted();
    ends_suffice();
    interval_rows_are_of_turns();
    fills_are_filled();
    the_race_order_is_kept();
}

/// All of it of one run. The joint replay of a log of a recording, the lowest ready hart first, isn't
/// stopped and keeps the recorded order. It gives the recorded rows from the recorded states, and ends with
/// recorded words.
pub fn joint_replays_say_the_run()
    ensures { JointReplaysSayTheRun }
{
    recordings_run_to_the_end();
    the_race_order_is_kept();
    the_states_are_recorded();
    the_memory_is_recorded();
    known_words_ascend();
    the_rows_are_recorded();
}

/// The joint replay of what a log file says, whose bytes are those of the recording's file, says the run.
#[tactic(auto, using(crate::proofs::Said::files_say_the_run))]
pub fn files_say_the_run_jointly()
    ensures { JointFilesSayTheRun }
{
    joint_replays_say_the_run();
    own_logs_are_logs();
    files_say_the_run();
}

/// At any time a joint replay that an allowed order led to says the run: the states and the words that it
/// shows are the run's. That an order led to it is what its type says (`joint_replay`'s `Joint::reached`).
pub fn reached_joint_replays_say_the_run()
    ensures { ReachedSayTheRun }
{
    the_race_order_is_kept();
    the_rows_are_recorded();
    the_states_are_recorded();
    the_memory_is_recorded();
}
