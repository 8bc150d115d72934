//! The demonstration: a generated program is recorded, its log is read back, and all that the log keeps
//! is replayed, each interval by itself and then all of them together.
#![tactic(auto)]

mod counting;
mod demonstration;
mod figures;
mod joining;
pub mod laws;
mod recording;
mod starting;

pub use demonstration::demo_lines;
pub use figures::Figures;
