//! The outside of a program that runs on a host: its files as a store, readers and writers as a source and
//! sinks, and the words of its command line.
//!
//! What the host's files, readers and writers hold is told by no clause, since others may change them at any
//! moment. What is told is how much is loaded at most, what is handed on, and that each failure is counted.
//!
//! Files that no `pub` below names may change with this crate's proofs alone.
#![tactic(auto)]

mod file_changer;
mod file_store;
mod limits;
mod opened;
mod replacing;
mod retries;
mod spared_files;
mod streams;
mod until_end;
mod words;

pub use file_store::FileStore;
pub use streams::{ReaderSource, Writing};
pub use words::words_of;
