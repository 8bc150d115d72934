//! The bus: one served ask at a time, by a type that knows its history.
//!
//! It stands on the laws of log files, since `close` promises records in the order that such a file needs.
#![tactic(auto)]

mod bus;
mod closed;
mod ends;
mod own_turn;
mod serving;
mod turn;

pub use bus::Bus;
pub use closed::Closed;
