//! The operations of atomic memory operations.
ghost use Rattle.std.specs.Prelude.{◌≡◌};

use crate::words::less;

/// The operation of an atomic memory operation, on the word in memory and the contents of rs2
/// (RISC-V unprivileged ISA, 8.4).
#[derive(Clone, Copy, Debug, PartialEq, Eq, Drop)]
pub enum AmoOp {
    /// The contents of rs2.
    Swap,
    /// The sum modulo 2^32.
    Add,
    /// The bitwise exclusive or.
    Xor,
    /// The bitwise and.
    And,
    /// The bitwise or.
    Or,
    /// The lesser of the two as signed numbers.
    Min,
    /// The greater of the two as signed numbers.
    Max,
    /// The lesser of the two as unsigned numbers.
    MinU,
    /// The greater of the two as unsigned numbers.
    MaxU,
}

impl AmoOp {
    ghost use Rattle.rv_meaning.specs.Access.{amo_result};

    /// The word that the operation stores; `word` is the one before it, `value` the contents of rs2.
    pub fn result(self, word: u32, value: u32) -> u32
        ensures { result ≡ amo_result self word value }
    {
        match self {
            AmoOp::Swap => value,
            AmoOp::Add => word.wrapping_add(value),
            AmoOp::Xor => word ^ value,
            AmoOp::And => word & value,
            AmoOp::Or => word | value,
            AmoOp::Min => { if less(word, value) { word } else { value } }
            AmoOp::Max => { if less(word, value) { value } else { word } }
            AmoOp::MinU => word.min(value),
            AmoOp::MaxU => word.max(value),
        }
    }
}
