//! An instruction and its fields: what `decode` gives, and what harts do.
ghost use Rattle.std.specs.Prelude.{◌<◌};

use crate::name::Name;

/// An instruction. A field that its format lacks is 0 or false, and so are all fields of a fence.
#[derive(Clone, Copy, Debug, Drop)]
pub struct Instr {
    /// Which instruction it is.
    pub name: Name,
    /// The number of the destination register, below 32.
    pub rd: u8,
    /// The number of the first source register, below 32.
    pub rs1: u8,
    /// The number of the second source register, below 32.
    pub rs2: u8,
    /// The immediate, sign-extended; for `lui` and `auipc` the word with its lower 12 bits 0; for a
    /// shift by an immediate the amount.
    pub imm: i32,
    /// The acquire bit of an atomic instruction.
    pub aq: bool,
    /// The release bit of an atomic instruction.
    pub rl: bool,
    pub ghost registers: { (rd < 32) × (rs1 < 32) × (rs2 < 32) },
}
