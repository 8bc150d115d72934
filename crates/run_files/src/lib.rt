//! The log file of a recording, and whether a log is the file of the run of a list of turns.
#![tactic(auto)]

mod auditing;
mod examples;
mod laws;
mod saved;
mod verdict;

pub use auditing::{audit, audit_sealed};
pub use examples::{
    a_hart_that_is_not_there_has_no_turn, a_list_can_be_too_long_or_too_short,
    files_differ_at_a_byte_or_an_end, the_lowest_live_hart_is_named,
};
pub use laws::{files_number_their_version, format_1_is_version_1, verdicts_are_unique};
pub use saved::{saved_file, saved_file_in};
pub use verdict::Verdict;
