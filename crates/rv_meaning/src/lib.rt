//! The meaning of the instructions of RV32IMA, and the rows of instructions: what each did to the registers
//! and to memory.
//!
//! Files that no `pub` below names may change with this crate's proofs alone.
#![tactic(auto)]

mod access;
mod ahead;
mod amo;
mod asks;
mod fetch;
mod fetched;
mod interpreter;
mod laws;
mod moves;
mod ops;
mod questions;
mod replies;
mod steps;
mod walk;
mod words;

pub use access::{is_aligned, loaded_value, stored_word};
pub use ahead::DecodedImage;
pub use amo::AmoOp;
pub use asks::{Ask, Reply, Want};
pub use fetched::Fetched;
pub use interpreter::{quiet_run, quiet_run_in_place, step_in_place};
pub use laws::{each_ask_is_orderly, each_instruction_is_counted_or_asks, registers_stay_words};
pub use ops::Op;
pub use replies::{absorb, absorb_in_place};
pub use walk::Walk;
