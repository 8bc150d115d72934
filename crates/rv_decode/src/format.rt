//! The layouts of instruction words: a format says which fields a row of the table has.

/// How the fields lie in a word (sections 2.2 and 2.3 of the RISC-V unprivileged specification).
#[derive(Clone, Copy, Debug, Drop)]
pub enum Format {
    /// rd and the upper 20 bits of an immediate.
    U,
    /// rd and a jump's offset of 21 bits.
    J,
    /// rd, rs1 and an immediate of 12 bits.
    I,
    /// rs1, rs2 and a branch's offset of 13 bits.
    B,
    /// rs1, rs2 and an immediate of 12 bits.
    S,
    /// rd, rs1 and a shift amount of 5 bits.
    Shift,
    /// rd, rs1 and rs2.
    R,
    /// No field.
    Bare,
    /// rd, rs1, rs2 and the bits aq and rl.
    Atomic,
}
