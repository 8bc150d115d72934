//! What the program meets outside itself: a store of named files, sources and sinks of bytes, a
//! book that notes the turns of a run, and a gate between the turns of harts in threads.
//!
//! Files and streams may fail at any call. What they hold is a meaning that they may tell or not:
//! files and terminals tell none, the objects in memory tell all of it. Each of them also counts
//! its refusals in numbers of 64 bits that never fall and stand still at their last value. A
//! refusal comes only in a call in which its count rose. A count at its last value counts as risen.
//!
//! Files that no `pub` below names may change with this crate's proofs alone.
#![tactic(auto)]

mod book;
mod calls;
mod full_book;
mod gate;
mod lean_book;
mod list_gate;
mod loops;
mod meet_gate;
mod memory_sink;
mod memory_source;
mod memory_store;
mod no_sink;
mod patience;
mod schedule;
mod sink;
mod source;
mod store;
mod turn_row;

pub use book::Book;
pub use full_book::FullBook;
pub use gate::{Gate, OpenGate};
pub use lean_book::LeanBook;
pub use list_gate::ListGate;
pub use loops::{ReadError, read_to_end, send_all};
pub use meet_gate::MeetGate;
pub use memory_sink::MemorySink;
pub use memory_source::MemorySource;
pub use memory_store::MemoryStore;
pub use no_sink::NoSink;
pub use patience::Patience;
pub use schedule::{Manner, Schedule};
pub use sink::Sink;
pub use source::Source;
pub use store::{LoadError, SaveError, Store};
use thiserror::Error;
pub use turn_row::TurnRow;

/// A read or a write failed, and moved no byte.
#[derive(Clone, Copy, Debug, Drop, PartialEq, Eq, Error)]
#[error("the read or write failed")]
pub struct Failed;
