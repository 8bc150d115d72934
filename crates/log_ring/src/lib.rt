//! The ring of records: the newest whole records of a log, as many as a fixed number of bytes holds.
//!
//! A recording appends every record to one ring, by an `Intake` in which they wait for each other, and the log file is what the
//! ring holds at the end. A replay never sees the ring: it is given the records that were kept, and how many older ones were
//! dropped.
#![tactic(auto)]

mod intake;
pub mod keeping;
mod ring;
mod waiting;

pub use intake::Intake;
pub use ring::Ring;
