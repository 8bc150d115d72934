//! The word of an instruction: `encode`, by which generated programs are written.
ghost use Rattle.std.specs.Prelude.{◌≡◌, ◌≢◌, Some, ◌<◌, ◌^◌, ℕ};
ghost use Rattle.rv_decode.specs.Table.{decoded, IsSpelled};
ghost use Rattle.rv_decode.specs.Encode.{fixed_of, laid, laid_s, laid_b, laid_j};
ghost use Rattle.rv_decode.specs.declared.name.Name.TheVariants.{Fence};
ghost use Rattle.rv_decode.specs.Seen.{seen};

use crate::format::Format;
use crate::instr::Instr;
use crate::name::Name;

/// The fixed bits of a name's row; of a fence those of `fence iorw, iorw`.
fn fixed_of(name: Name) -> u32
    ensures { result ≡ fixed_of name }
{
    match name {
        Name::Lui => 0x37,
        Name::Auipc => 0x17,
        Name::Jal => 0x6f,
        Name::Jalr => 0x67,
        Name::Beq => 0x63,
        Name::Bne => 0x1063,
        Name::Blt => 0x4063,
        Name::Bge => 0x5063,
        Name::Bltu => 0x6063,
        Name::Bgeu => 0x7063,
        Name::Lb => 0x3,
        Name::Lh => 0x1003,
        Name::Lw => 0x2003,
        Name::Lbu => 0x4003,
        Name::Lhu => 0x5003,
        Name::Sb => 0x23,
        Name::Sh => 0x1023,
        Name::Sw => 0x2023,
        Name::Addi => 0x13,
        Name::Slti => 0x2013,
        Name::Sltiu => 0x3013,
        Name::Xori => 0x4013,
        Name::Ori => 0x6013,
        Name::Andi => 0x7013,
        Name::Slli => 0x1013,
        Name::Srli => 0x5013,
        Name::Srai => 0x40005013,
        Name::Add => 0x33,
        Name::Sll => 0x1033,
        Name::Slt => 0x2033,
        Name::Sltu => 0x3033,
        Name::Xor => 0x4033,
        Name::Srl => 0x5033,
        Name::Or => 0x6033,
        Name::And => 0x7033,
        Name::Sub => 0x40000033,
        Name::Sra => 0x40005033,
        Name::Mul => 0x2000033,
        Name::Mulh => 0x2001033,
        Name::Mulhsu => 0x2002033,
        Name::Mulhu => 0x2003033,
        Name::Div => 0x2004033,
        Name::Divu => 0x2005033,
        Name::Rem => 0x2006033,
        Name::Remu => 0x2007033,
        Name::Fence => 0xff0000f,
        Name::Ecall => 0x73,
        Name::Ebreak => 0x100073,
        Name::LrW => 0x1000202f,
        Name::ScW => 0x1800202f,
        Name::AmoswapW => 0x800202f,
        Name::AmoaddW => 0x202f,
        Name::AmoxorW => 0x2000202f,
        Name::AmoandW => 0x6000202f,
        Name::AmoorW => 0x4000202f,
        Name::AmominW => 0x8000202f,
        Name::AmomaxW => 0xa000202f,
        Name::AmominuW => 0xc000202f,
        Name::AmomaxuW => 0xe000202f,
    }
}

/// An immediate of format S in its places.
fn laid_s(n: u32) -> u32
    requires { n < 2 ^ 12 }
    ensures value { result ≡ laid_s n }
    ensures bound { result < 2 ^ 32 }
{
    n / 32 * 0x0200_0000 + n % 32 * 128
}

/// A branch's offset in its places.
fn laid_b(n: u32) -> u32
    requires { n < 2 ^ 13 }
    ensures { result ≡ laid_b n }
{
    n / 4096 * 0x8000_0000 + n / 2048 % 2 * 128 + n / 32 % 64 * 0x0200_0000 + n / 2 % 16 * 256
}

/// A jump's offset in its places.
fn laid_j(n: u32) -> u32
    requires { n < 2 ^ 21 }
    ensures { result ≡ laid_j n }
{
    n / 0x0010_0000 * 0x8000_0000
        + n / 4096 % 256 * 4096
        + n / 2048 % 2 * 0x0010_0000
        + n / 2 % 1024 * 0x0020_0000
}

/// The fields of an instruction in their places.
fn laid(format: Format, instr: &Instr) -> u32
    ensures { result ≡ laid format (seen instr.now) }
{
    let rd = u32::from(instr.rd) * 128;
    let rs1 = u32::from(instr.rs1) * 0x8000;
    let rs2 = u32::from(instr.rs2) * 0x0010_0000;
    let imm = instr.imm.cast_unsigned();
    match format {
        Format::U => rd + imm / 4096 * 4096,
        Format::J => rd + laid_j(imm % 0x0020_0000),
        Format::I => rd + rs1 + imm % 4096 * 0x0010_0000,
        Format::B => rs1 + rs2 + laid_b(imm % 8192),
        Format::S => rs1 + rs2 + laid_s(imm % 4096),
        Format::Shift => rd + rs1 + imm % 32 * 0x0010_0000,
        Format::R => rd + rs1 + rs2,
        Format::Bare => 0,
        Format::Atomic => {
            let aq = u32::from(instr.aq) * 0x0400_0000;
            let rl = u32::from(instr.rl) * 0x0200_0000;
            rd + rs1 + rs2 + aq + rl
        }
    }
}

/// The word of an instruction, given that some word spells it. Every instruction but a fence has
/// one word; a fence, of which only the name is kept, gives `0ff0000f`, which is
/// `fence iorw, iorw` (section 2.7 of the RISC-V unprivileged specification).
pub fn encode(instr: &Instr) -> u32
    requires { IsSpelled (seen instr.now) }
    ensures again { decoded result ≡ Some (seen instr.now) }
    ensures only { (w : ℕ) → w < 2 ^ 32 →
        decoded w ≡ Some (seen instr.now) → instr.now.name ≢ Fence → result ≡ w }
    ensures fence { instr.now.name ≡ Fence → result ≡ 0x0ff0000f }
{
    fixed_of(instr.name) + laid(instr.name.format(), instr)
}
