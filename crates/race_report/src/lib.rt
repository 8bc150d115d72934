//! The race report: from a log alone, the pairs of conflicting accesses of retained intervals that no
//! synchronisation orders.
//!
//! A point is an instruction of a retained interval that accesses words. A sync point is an LR, an AMO
//! or an SC that succeeded. One point is ordered before another if a chain of steps leads there. A step
//! goes from a point to a later one of its hart, or from a sync point to a later conflicting one. Later
//! means in the joint replay with the lowest ready hart first. An order by synchronisation in intervals
//! that were given up isn't seen.
//!
//! Files that no `pub` below names may change with this crate's proofs alone.
#![tactic(auto)]

mod calls;
mod error;
mod examples;
mod gathered;
pub mod laws;
mod listing;
mod meeting;
mod meets;
mod race;
mod race_lists;
mod reach;
mod reporting;
mod telling;
mod texts;
mod touch;
mod track;

pub use error::RaceError;
pub use examples::{
    a_failed_conditional_passes_no_message, a_filled_word_races, a_relay_has_three_races,
    an_atomic_passes_a_message,
};
pub use race::Race;
pub use reporting::report;
pub use telling::races_text;
pub use texts::{write_count, write_race};
