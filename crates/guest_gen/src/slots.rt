//! The instructions of generated programs: each slot's is determined by one drawn number.
ghost use Rattle.std.specs.Prelude.{◌≡◌, ◌<◌, ◌^◌};
ghost use Rattle.rv_decode.specs.Seen.{seen};
ghost use Rattle.guest_gen.specs.Code.{with_immediate, storing, of_registers, next, chosen, slot, closing, IsCode};

use crate::kind::Kind;
use rv_decode::{Instr, Name};

/// The register t1.
pub const T1: u8 = 6;

/// The register t2.
pub const T2: u8 = 7;

/// The register s0.
pub const S0: u8 = 8;

/// The register s1.
pub const S1: u8 = 9;

/// The register a0.
pub const A0: u8 = 10;

/// An instruction with a destination, a source and an immediate.
pub fn with_immediate(name: Name, rd: u8, rs1: u8, imm: u32) -> Instr
    requires { (rd < 32) × (rs1 < 32) × (imm < 2 ^ 31) }
    ensures { seen result ≡ with_immediate name rd rs1 imm }
{
    Instr {
        name,
        rd,
        rs1,
        rs2: 0,
        imm: imm as i32,
        aq: false,
        rl: false,
    }
}

/// A store of `rs2` at the address that `rs1` and the immediate give.
pub fn storing(name: Name, rs2: u8, rs1: u8, imm: u32) -> Instr
    requires { (rs1 < 32) × (rs2 < 32) × (imm < 2 ^ 31) }
    ensures { seen result ≡ storing name rs2 rs1 imm }
{
    Instr {
        name,
        rd: 0,
        rs1,
        rs2,
        imm: imm as i32,
        aq: false,
        rl: false,
    }
}

/// An instruction with a destination and two sources.
pub fn of_registers(name: Name, rd: u8, rs1: u8, rs2: u8) -> Instr
    requires { (rd < 32) × (rs1 < 32) × (rs2 < 32) }
    ensures { seen result ≡ of_registers name rd rs1 rs2 }
{
    Instr {
        name,
        rd,
        rs1,
        rs2,
        imm: 0,
        aq: false,
        rl: false,
    }
}

/// The generator's next state.
pub fn next(state: u64) -> u64
    ensures { result ≡ next state }
{
    state
        .wrapping_mul(6364136223846793005)
        .wrapping_add(1442695040888963407)
}

// The instruction of a choice and a number.
fn chosen(choice: u64, k: u32) -> Instr
    requires { k < 64 }
    ensures { seen result ≡ chosen choice k }
{
    match choice {
        0 => with_immediate(Name::Addi, T1, T1, k),
        1 => of_registers(Name::Xor, T2, T2, T1),
        2 => with_immediate(Name::Lw, T1, S0, 4 * k),
        3 => storing(Name::Sw, T1, S0, 4 * k),
        4 => storing(Name::Sb, T2, S0, 4 * k),
        5 => of_registers(Name::AmoaddW, T1, S0, T2),
        6 => of_registers(Name::Mul, T2, T1, T2),
        _ => with_immediate(Name::Lw, T2, S1, 256 + 4 * k),
    }
}

/// The instruction of a draw: its lowest three bits choose it, and the six above them are its number.
pub fn slot(drawn: u64) -> Instr
    ensures value { seen result ≡ slot drawn }
    ensures code { IsCode (seen result) }
{
    chosen(drawn % 8, (drawn / 8 % 64) as u32)
}

/// The instruction after the slots.
pub fn closing(kind: Kind) -> Instr
    ensures { seen result ≡ closing kind }
{
    match kind {
        Kind::Loop => Instr {
            name: Name::Jal,
            rd: 0,
            rs1: 0,
            rs2: 0,
            imm: -1024,
            aq: false,
            rl: false,
        },
        Kind::Crash => with_immediate(Name::Lw, T1, 0, 0),
    }
}
