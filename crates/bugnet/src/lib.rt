//! Records runs of programs and replays their logs.
//!
//! [`run`] is the program but for the system: it takes its words, a store of files, a source and two
//! sinks.
#![tactic(auto)]

mod command_files;
mod commands;
mod laws;
mod program;
mod recorder;
mod recordings;
mod replies;

pub use laws::{
    answers_are_determined, audits_agree, books_are_followed, crashes_are_shown, each_can_be_done,
    each_has_an_answer, files_keep_to_their_size, headline, joint_headline, one_answer,
    one_session, prefixes_can_be_debugged, races_are_told, recordings_are_joined,
    recordings_are_replayed, recordings_can_be_debugged, recordings_can_be_joined,
    recordings_say_ends, salvaged_logs_are_replayed, salvaged_logs_say_ends, schedules_are_whole,
    schedules_give_one_run, seeds_are_whole, sessions_show_the_run, slices_are_told,
};
pub use log_commands::status::Status;
pub use program::{perform, run, run_by_schedule};
