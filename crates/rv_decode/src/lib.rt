//! The instruction words of RV32IMA.
//!
//! [`decode`] gives the instruction that a word spells, by the 59 rows of the RISC-V unprivileged
//! specification's listing of RV32I, M and A (version 20191213, chapters 2, 7, 8 and 24).
//! [`encode`] gives the word back. Neither allocates, and neither searches a list.
//!
//! Files that no `pub` below names may change with this crate's proofs alone.
#![tactic(auto)]

mod decoding;
mod encoding;
mod format;
mod instr;
mod kinds;
mod laws;
mod name;

pub use decoding::decode;
pub use encoding::encode;
pub use format::Format;
pub use instr::Instr;
pub use laws::{each_word_decodes_by_its_row, no_two_rows_fit_one_word};
pub use name::Name;
