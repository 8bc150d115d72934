//! Steps of a joint replay that can be gone back, position by position.
//!
//! Files that no `pub` below names may change with this crate's proofs alone.
#![tactic(auto)]

mod entry;
mod examples;
pub mod laws;
mod steps;
mod trail;

pub use entry::Entry;
pub use trail::Trail;
