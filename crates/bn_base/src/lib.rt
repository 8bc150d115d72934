//! The vocabulary of the recorder: what a hart is, what a recording is set to,
//! and what a loaded program is. Every other crate speaks in these types.
#![tactic(auto)]

pub mod end_mark;
pub mod fault;
pub mod image;
pub mod list;
pub mod register;
pub mod registers;
pub mod row;
pub mod segment;
pub mod settings;
pub mod state;

pub use end_mark::EndMark;
pub use fault::Fault;
pub use image::Image;
pub use list::List;
pub use register::Register;
pub use registers::Registers;
pub use row::Row;
pub use segment::Segment;
pub use settings::{BadSetting, HARTS, RawSettings, Settings};
pub use state::HartState;

/// The number of a hart (a hardware thread of RISC-V), counted from 0.
pub type HartId = u8;

/// A count of instructions that a hart has done.
pub type Ic = u64;

/// The address of a byte.
pub type Addr = u32;
