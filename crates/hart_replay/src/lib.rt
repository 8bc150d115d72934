//! The replay of one checkpoint interval, from its log and the program alone. `specs/Replay.antt` defines its rows and
//! its outcome, and `Replayer` gives them one by one.
//!
//! Files that no `pub` below names may change with this crate's proofs alone.
#![tactic(auto)]

mod decode_cache;
mod directory;
pub mod error;
pub mod header;
mod interval_cursor;
pub mod laws;
mod level;
mod page;
mod pending;
pub mod replayer;
mod rows;
pub mod scan;
pub mod words;

pub use error::ReplayError;
pub use replayer::Replayer;
pub use rows::blank_row;
pub use words::Words;
