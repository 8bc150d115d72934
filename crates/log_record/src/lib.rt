//! The records of a log, their bytes, and lists of them in little memory. A recorder writes them; files, replays and
//! reports read them. `specs/Spelling.antt` pins each byte.
//!
//! Files that no `pub` below names may change with this crate's proofs alone.
#![tactic(auto)]

pub mod bytes;
pub mod head;
pub mod laws;
pub mod list;
pub mod reading;
pub mod record;
mod stored_record;
pub mod writing;

pub use bytes::Bytes;
pub use head::Head;
pub use list::RecordList;
pub use reading::{read, read_as, size};
pub use record::Record;
pub use writing::{write, write_edge, write_first_load};
