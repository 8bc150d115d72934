//! Numbers in bytes, the least significant byte first, as files of this project and of ELF have them.
//! The formats' definitions use `number_bytes` and `number_at`: these fix each file's bytes.
#![tactic(auto)]

pub mod laws;
pub mod reading;
pub mod writing;

pub use reading::{read_u16, read_u32, read_u64};
pub use writing::{push_u32, push_u64, write_u32, write_u64};
