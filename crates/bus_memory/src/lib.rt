//! The memory that all harts share: a map from addresses to words that begins as the program's
//! first memory, kept in pages.
//!
//! Files that no `pub` below names may change with this crate's proofs alone.
#![tactic(auto)]

mod first;
pub mod memory;
mod page;
mod range;

pub use memory::Memory;
