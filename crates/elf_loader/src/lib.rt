//! Loads programs out of ELF files: static 32-bit RISC-V executables (ELF, and the RISC-V ELF psABI).
//! `load` gives the image of the file's bytes, or the first of the reasons to refuse it.
//!
//! Files that no `pub` below names may change with this crate's proofs alone.
#![tactic(auto)]

mod checks;
mod error;
mod examples;
mod file_header;
mod flags;
pub mod laws;
mod loading;
mod program_header;

pub use error::ElfError;
pub use examples::{
    a_bad_table_is_refused, bad_segments_are_refused, other_files_are_refused,
    other_programs_are_refused,
};
pub use loading::load;
