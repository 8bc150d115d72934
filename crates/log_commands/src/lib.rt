//! The commands that read a log and its program: what each loads, what it answers by the loaded bytes, and what it
//! prints. It has what all commands share, too: the names of files by their roles, the refusals with their lines and
//! statuses, loads, and texts sent to an output. Of a recording it knows the answer that is told, and not how it is made.
#![tactic(auto)]

pub mod acting;
pub mod answer;
pub mod commands;
pub mod examples;
pub mod inputs;
mod lines;
pub mod names;
pub mod pairs;
pub mod refusal;
pub mod replay_lines;
pub mod send;
pub mod status;
pub mod texts;

pub use answer::{Answer, IntervalToReplay, NewLog, RunEnd, RunToTell};
pub use names::{Names, Role};
pub use pairs::JointReading;
pub use refusal::Refusal;
pub use replay_lines::ReplayEnd;
pub use status::Status;
pub use texts::RunCounts;
