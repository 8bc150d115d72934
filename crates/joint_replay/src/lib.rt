//! The replay of all retained intervals together, in any order that the kept Edges allow.
//!
//! Files that no `pub` below names may change with this crate's proofs alone, but for `running`, which has methods of
//! `Joint`.
#![tactic(auto)]

mod calls;
mod error;
mod examples;
mod incoming_edges;
mod intervals;
mod joint;
mod kinds;
mod lane;
pub mod laws;
mod points;
mod replay_memory;
mod running;
mod texts;

pub use error::JointError;
pub use joint::Joint;
pub use kinds::{Coming, Next, Readiness, Stepped};
pub use texts::{write_known, write_step};
