//! The names of instructions: one for each row of the table, with its format.

ghost use Rattle.std.specs.Prelude.{◌≡◌};

use crate::format::Format;

/// The names of the 59 instructions of RV32IMA. The sections are those of the RISC-V
/// unprivileged specification, version 20191213.
#[derive(Clone, Copy, Debug, Drop)]
pub enum Name {
    /// Load upper immediate (section 2.4.1).
    Lui,
    /// Add upper immediate to pc (section 2.4.1).
    Auipc,
    /// Jump and link (section 2.5.1).
    Jal,
    /// Jump and link register (section 2.5.1).
    Jalr,
    /// Branch if equal (section 2.5.2).
    Beq,
    /// Branch if not equal (section 2.5.2).
    Bne,
    /// Branch if less, signed (section 2.5.2).
    Blt,
    /// Branch if greater or equal, signed (section 2.5.2).
    Bge,
    /// Branch if less, unsigned (section 2.5.2).
    Bltu,
    /// Branch if greater or equal, unsigned (section 2.5.2).
    Bgeu,
    /// Load byte, sign-extended (section 2.6).
    Lb,
    /// Load halfword, sign-extended (section 2.6).
    Lh,
    /// Load word (section 2.6).
    Lw,
    /// Load byte, zero-extended (section 2.6).
    Lbu,
    /// Load halfword, zero-extended (section 2.6).
    Lhu,
    /// Store byte (section 2.6).
    Sb,
    /// Store halfword (section 2.6).
    Sh,
    /// Store word (section 2.6).
    Sw,
    /// Add immediate (section 2.4.1).
    Addi,
    /// Set if less than immediate, signed (section 2.4.1).
    Slti,
    /// Set if less than immediate, unsigned (section 2.4.1).
    Sltiu,
    /// Exclusive or with immediate (section 2.4.1).
    Xori,
    /// Or with immediate (section 2.4.1).
    Ori,
    /// And with immediate (section 2.4.1).
    Andi,
    /// Shift left by immediate (section 2.4.1).
    Slli,
    /// Logical shift right by immediate (section 2.4.1).
    Srli,
    /// Arithmetic shift right by immediate (section 2.4.1).
    Srai,
    /// Add (section 2.4.2).
    Add,
    /// Shift left (section 2.4.2).
    Sll,
    /// Set if less than, signed (section 2.4.2).
    Slt,
    /// Set if less than, unsigned (section 2.4.2).
    Sltu,
    /// Exclusive or (section 2.4.2).
    Xor,
    /// Logical shift right (section 2.4.2).
    Srl,
    /// Or (section 2.4.2).
    Or,
    /// And (section 2.4.2).
    And,
    /// Subtract (section 2.4.2).
    Sub,
    /// Arithmetic shift right (section 2.4.2).
    Sra,
    /// Lower half of the product (section 7.1).
    Mul,
    /// Upper half of the product, signed by signed (section 7.1).
    Mulh,
    /// Upper half of the product, signed by unsigned (section 7.1).
    Mulhsu,
    /// Upper half of the product, unsigned by unsigned (section 7.1).
    Mulhu,
    /// Quotient, signed (section 7.2).
    Div,
    /// Quotient, unsigned (section 7.2).
    Divu,
    /// Remainder, signed (section 7.2).
    Rem,
    /// Remainder, unsigned (section 7.2).
    Remu,
    /// Order memory accesses (section 2.7).
    Fence,
    /// Environment call (section 2.8).
    Ecall,
    /// Breakpoint (section 2.8).
    Ebreak,
    /// Load-reserved word (section 8.2).
    LrW,
    /// Store-conditional word (section 8.2).
    ScW,
    /// Atomic swap (section 8.4).
    AmoswapW,
    /// Atomic add (section 8.4).
    AmoaddW,
    /// Atomic exclusive or (section 8.4).
    AmoxorW,
    /// Atomic and (section 8.4).
    AmoandW,
    /// Atomic or (section 8.4).
    AmoorW,
    /// Atomic minimum, signed (section 8.4).
    AmominW,
    /// Atomic maximum, signed (section 8.4).
    AmomaxW,
    /// Atomic minimum, unsigned (section 8.4).
    AmominuW,
    /// Atomic maximum, unsigned (section 8.4).
    AmomaxuW,
}

impl Name {
    ghost use Rattle.rv_decode.specs.Encode.{format_of};

    /// How the fields lie in the words of this name.
    pub fn format(self) -> Format
        ensures { result ≡ format_of self }
    {
        match self {
            Name::Lui | Name::Auipc => Format::U,
            Name::Jal => Format::J,
            Name::Jalr
            | Name::Lb
            | Name::Lh
            | Name::Lw
            | Name::Lbu
            | Name::Lhu
            | Name::Addi
            | Name::Slti
            | Name::Sltiu
            | Name::Xori
            | Name::Ori
            | Name::Andi => Format::I,
            Name::Beq | Name::Bne | Name::Blt | Name::Bge | Name::Bltu | Name::Bgeu => Format::B,
            Name::Sb | Name::Sh | Name::Sw => Format::S,
            Name::Slli | Name::Srli | Name::Srai => Format::Shift,
            Name::Add
            | Name::Sll
            | Name::Slt
            | Name::Sltu
            | Name::Xor
            | Name::Srl
            | Name::Or
            | Name::And
            | Name::Sub
            | Name::Sra
            | Name::Mul
            | Name::Mulh
            | Name::Mulhsu
            | Name::Mulhu
            | Name::Div
            | Name::Divu
            | Name::Rem
            | Name::Remu => Format::R,
            Name::Fence | Name::Ecall | Name::Ebreak => Format::Bare,
            Name::LrW
            | Name::ScW
            | Name::AmoswapW
            | Name::AmoaddW
            | Name::AmoxorW
            | Name::AmoandW
            | Name::AmoorW
            | Name::AmominW
            | Name::AmomaxW
            | Name::AmominuW
            | Name::AmomaxuW => Format::Atomic,
        }
    }
}
