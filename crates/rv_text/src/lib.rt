//! The texts of instructions, rows and ends of intervals.
//!
//! [`write_instr`] appends an instruction as an assembler would take it: registers by their names in
//! the calling convention, and no pseudo-instruction. [`write_row`] appends one line for what an
//! instruction did. [`write_mark`] and [`write_end`] say how an interval ended. All append to a
//! [`Text`]. [`end_with_decimal`] and [`end_with_hex8`] end a line.
//!
//! [`RowLines`] writes the same lines faster: it keeps the texts of the code that it wrote last, so that an
//! instruction which is done again is not spelled again.
//!
//! Files that no `pub` below names may change with this crate's proofs alone.
#![tactic(auto)]

mod code;
mod counts;
mod digits;
mod effects;
mod endings;
mod instructions;
mod lines;
mod marks;
mod names;
mod operands;
mod piece;
mod rows;
mod text;

pub use endings::{end_with_decimal, end_with_hex8};
pub use instructions::write_instr;
pub use lines::RowLines;
pub use marks::{write_end, write_mark};
pub use names::register_name;
pub use rows::write_row;
pub use text::Text;
