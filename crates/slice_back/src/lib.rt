//! The backward slice of a row of an interval: the rows that it depends on, and what of it came from
//! before.
//!
//! Files that no `pub` below names may change with this crate's proofs alone.
#![tactic(auto)]

mod back;
mod error;
mod examples;
mod first_loads;
mod laws;
mod lists;
mod live_set;
mod noted;
mod row_trace;
mod slicing;
mod telling;
mod texts;
mod uses;

pub use back::slice;
pub use error::SliceError;
pub use laws::{slices_are_least, slices_ascend, slices_suffice};
pub use lists::Slice;
pub use noted::Noted;
pub use telling::slice_text;
pub use texts::{write_branch, write_head, write_register, write_word};
