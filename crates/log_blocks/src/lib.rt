//! The log file, version 2: records in sealed blocks, written, read back, and salvaged.
//!
//! It reads version 1 too, by `log_file`. The version that the bytes name decides by which order of tests they
//! are refused.
#![tactic(auto)]

pub mod counting;
pub mod cutting;
pub mod damage;
mod examples;
pub mod gathering;
pub mod head;
pub mod laws;
pub mod reading;
pub mod readings;
pub mod salvaging;
pub mod sealing;
pub mod testing;
pub mod walking;
pub mod writing;

pub use counting::{count_file, counts_of};
pub use damage::{Damage, SalvageError};
pub use examples::{
    a_block_has_its_size, a_block_is_full_at_4096_bytes, a_block_that_is_cut_off_is_bad,
    records_are_cut_in_one_way,
};
pub use head::is_second;
pub use reading::read_file;
pub use salvaging::{NewFile, salvage, salvage_file};
pub use writing::{write_file2, write_log2};
