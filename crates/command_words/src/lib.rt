//! The words of the command line: which are taken, and what they ask for.
//!
//! The words are read by one command of clap. What is taken is its definition (`specs/App.antt`),
//! what a taken line says is `command_in` (`specs/Words.antt`).
//!
//! Files that no `pub` below names may change with this crate's proofs alone.
#![tactic(auto)]

mod commands;
mod definition;
mod error;
mod examples;
mod found;
mod reading;

pub use commands::{Command, RecordOptions};
pub use error::WordsError;
pub use examples::{
    each_command_is_taken, names_may_look_like_other_words, numbers_are_decimal,
    options_stand_anywhere, other_lines_are_refused,
};
pub use reading::read_words;
