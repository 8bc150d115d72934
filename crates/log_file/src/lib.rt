//! The log file, version 1: written, read back, and each damage named. `specs/Layout.antt` pins its bytes.
#![tactic(auto)]

pub mod counting;
pub mod error;
mod examples;
pub mod head;
pub mod laws;
pub mod offsets;
pub mod reading;
pub mod readings;
pub mod splitting;
pub mod testing;
pub mod writing;

pub use counting::{LogCounts, Tally, tally_of};
pub use error::FileError;
pub use examples::{
    a_head_is_refused, no_record_begins_there, other_bytes_are_no_file,
    other_bytes_than_those_signed_are_refused,
};
pub use reading::{count_file, read_file};
pub use writing::{seal, write_file, write_unsealed};
