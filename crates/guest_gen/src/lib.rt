//! Programs that a number gives: files for tests and demonstrations, each with 256 instructions chosen
//! by the draws of a generator, which the harts run through in a loop or up to a crash.
//!
//! Files that no `pub` below names may change with this crate's proofs alone.
#![tactic(auto)]

mod building;
mod kind;
pub mod laws;
mod slots;

pub use building::guest;
pub use kind::Kind;
