//! A debugger for the joint replay of all retained intervals, by commands on lines.
//!
//! Files that no `pub` below names may change with this crate's proofs alone.
#![tactic(auto)]

mod command;
mod debugger;
mod error;
mod examples;
mod focus;
pub mod laws;
mod lines;
mod moves;
mod numbers;
mod parse;
mod returns;
mod sending;
mod session;
mod stop;
mod texts;

pub use command::DebugCommand;
pub use debugger::debug;
pub use error::DebugError;
pub use session::Ending;
pub use stop::Stop;
