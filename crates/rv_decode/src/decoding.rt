//! What a word decodes to: `decode`, by which recorders and replays read code.
ghost use Rattle.std.specs.Prelude.{◌≡◌, ◌<◌, ◌^◌, ◌+◌, ◌*◌, option_map};
ghost use Rattle.rv_decode.specs.Table.{field, rd_of, rs1_of, rs2_of, spelled, signed, decoded};
ghost use Rattle.rv_decode.specs.declared.format.Format.TheVariants.{U, J, I, B, S, Shift, R, Bare, Atomic};
ghost use Rattle.rv_decode.specs.Seen.{seen};

use crate::format::Format;
use crate::instr::Instr;
use crate::kinds::kind_of;
use crate::name::Name;

/// The 12 bits `n` in two's complement.
fn signed_12(n: u32) -> i32
    requires { n < 2 ^ 12 }
    ensures { result ≡ signed 12 n }
{
    if n < 2048 { n as i32 } else { n as i32 - 4096 }
}

/// The 13 bits `n` in two's complement.
fn signed_13(n: u32) -> i32
    requires { n < 2 ^ 13 }
    ensures { result ≡ signed 13 n }
{
    if n < 4096 { n as i32 } else { n as i32 - 8192 }
}

/// The 21 bits `n` in two's complement.
fn signed_21(n: u32) -> i32
    requires { n < 2 ^ 21 }
    ensures { result ≡ signed 21 n }
{
    if n < 0x0010_0000 {
        n as i32
    } else {
        n as i32 - 0x0020_0000
    }
}

/// The destination register, bits 11 to 7.
fn rd(word: u32) -> u8
    ensures { result ≡ rd_of word }
{
    ((word >> 7) % 32) as u8
}

/// The first source register, bits 19 to 15.
fn rs1(word: u32) -> u8
    ensures { result ≡ rs1_of word }
{
    ((word >> 15) % 32) as u8
}

/// The second source register, bits 24 to 20.
fn rs2(word: u32) -> u8
    ensures { result ≡ rs2_of word }
{
    ((word >> 20) % 32) as u8
}

/// The offset of a branch: bits 31, 7, 30 to 25 and 11 to 8, then a 0.
fn branch_bits(word: u32) -> u32
    ensures value { result ≡
        field 31 1 word * 2 ^ 12 + field 7 1 word * 2 ^ 11 + field 25 6 word * 2 ^ 5
        + field 8 4 word * 2 }
    ensures bound { result < 2 ^ 13 }
{
    (word >> 31) % 2 * 4096 + (word >> 7) % 2 * 2048 + (word >> 25) % 64 * 32 + (word >> 8) % 16 * 2
}

/// The offset of a jump: bits 31, 19 to 12, 20 and 30 to 21, then a 0.
fn jump_bits(word: u32) -> u32
    ensures value { result ≡
        field 31 1 word * 2 ^ 20 + field 12 8 word * 2 ^ 12 + field 20 1 word * 2 ^ 11
        + field 21 10 word * 2 }
    ensures bound { result < 2 ^ 21 }
{
    (word >> 31) % 2 * 0x0010_0000
        + (word >> 12) % 256 * 4096
        + (word >> 20) % 2 * 2048
        + (word >> 21) % 1024 * 2
}

/// A word of format U.
fn upper(name: Name, word: u32) -> Instr
    ensures { seen result ≡ spelled name U word }
{
    Instr {
        name,
        rd: rd(word),
        rs1: 0,
        rs2: 0,
        imm: ((word >> 12) % 0x0010_0000 * 4096).cast_signed(),
        aq: false,
        rl: false,
    }
}

/// A word of format J.
fn jump(name: Name, word: u32) -> Instr
    ensures { seen result ≡ spelled name J word }
{
    Instr {
        name,
        rd: rd(word),
        rs1: 0,
        rs2: 0,
        imm: signed_21(jump_bits(word)),
        aq: false,
        rl: false,
    }
}

/// A word of format I.
fn immediate(name: Name, word: u32) -> Instr
    ensures { seen result ≡ spelled name I word }
{
    Instr {
        name,
        rd: rd(word),
        rs1: rs1(word),
        rs2: 0,
        imm: signed_12((word >> 20) % 4096),
        aq: false,
        rl: false,
    }
}

/// A word of format B.
fn branch(name: Name, word: u32) -> Instr
    ensures { seen result ≡ spelled name B word }
{
    Instr {
        name,
        rd: 0,
        rs1: rs1(word),
        rs2: rs2(word),
        imm: signed_13(branch_bits(word)),
        aq: false,
        rl: false,
    }
}

/// A word of format S.
fn store(name: Name, word: u32) -> Instr
    ensures { seen result ≡ spelled name S word }
{
    Instr {
        name,
        rd: 0,
        rs1: rs1(word),
        rs2: rs2(word),
        imm: signed_12((word >> 25) % 128 * 32 + (word >> 7) % 32),
        aq: false,
        rl: false,
    }
}

/// A shift by an immediate, whose amount lies in the bits of rs2.
fn shift(name: Name, word: u32) -> Instr
    ensures { seen result ≡ spelled name Shift word }
{
    Instr {
        name,
        rd: rd(word),
        rs1: rs1(word),
        rs2: 0,
        imm: i32::from(rs2(word)),
        aq: false,
        rl: false,
    }
}

/// A word of format R.
fn registers(name: Name, word: u32) -> Instr
    ensures { seen result ≡ spelled name R word }
{
    Instr {
        name,
        rd: rd(word),
        rs1: rs1(word),
        rs2: rs2(word),
        imm: 0,
        aq: false,
        rl: false,
    }
}

/// An atomic instruction, with aq in bit 26 and rl in bit 25.
fn atomic(name: Name, word: u32) -> Instr
    ensures { seen result ≡ spelled name Atomic word }
{
    Instr {
        name,
        rd: rd(word),
        rs1: rs1(word),
        rs2: rs2(word),
        imm: 0,
        aq: (word >> 26) % 2 == 1,
        rl: (word >> 25) % 2 == 1,
    }
}

/// An instruction without fields.
fn bare(name: Name) -> Instr
    ensures { seen result ≡ spelled name Bare 0 }
{
    Instr {
        name,
        rd: 0,
        rs1: 0,
        rs2: 0,
        imm: 0,
        aq: false,
        rl: false,
    }
}

/// The instruction of a name with the fields of a word.
fn placed(name: Name, format: Format, word: u32) -> Instr
    ensures { seen result ≡ spelled name format word }
{
    match format {
        Format::U => upper(name, word),
        Format::J => jump(name, word),
        Format::I => immediate(name, word),
        Format::B => branch(name, word),
        Format::S => store(name, word),
        Format::Shift => shift(name, word),
        Format::R => registers(name, word),
        Format::Bare => bare(name),
        Format::Atomic => atomic(name, word),
    }
}

/// The instruction that a word spells: that of the row which it fits, with the word's fields. `None`
/// if and only if it fits no row of the table.
// It has one clause, and that it is exactly the table is a law over `decoded`: so no caller's proof carries the
// table's 59 rows.
#[tactic(auto, using(crate::proofs::Fields::decoded_some))]
pub fn decode(word: u32) -> Option<Instr>
    ensures { option_map seen result ≡ decoded word }
{
    let (name, format) = kind_of(word)?;
    Some(placed(name, format, word))
}
