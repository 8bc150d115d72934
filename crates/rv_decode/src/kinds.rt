//! Which row of the table a word fits: one match by its fixed fields.
ghost use Rattle.std.specs.Prelude.{◌≡◌};
ghost use Rattle.rv_decode.specs.Table.{table, row_in};
ghost use Rattle.rv_decode.specs.Fields.{row_by, kind_by};

use crate::format::Format;
use crate::name::Name;

/// The branches (opcode 1100011).
fn branch_name(f3: u32) -> Option<(Name, Format)>
    ensures { kind_by (row_by table 0x63 0 f3 0 0 0 0) ≡ result }
{
    match f3 {
        0 => Some((Name::Beq, Format::B)),
        1 => Some((Name::Bne, Format::B)),
        4 => Some((Name::Blt, Format::B)),
        5 => Some((Name::Bge, Format::B)),
        6 => Some((Name::Bltu, Format::B)),
        7 => Some((Name::Bgeu, Format::B)),
        _ => None,
    }
}

/// The loads (opcode 0000011).
fn load_name(f3: u32) -> Option<(Name, Format)>
    ensures { kind_by (row_by table 0x3 0 f3 0 0 0 0) ≡ result }
{
    match f3 {
        0 => Some((Name::Lb, Format::I)),
        1 => Some((Name::Lh, Format::I)),
        2 => Some((Name::Lw, Format::I)),
        4 => Some((Name::Lbu, Format::I)),
        5 => Some((Name::Lhu, Format::I)),
        _ => None,
    }
}

/// The register-immediate instructions (opcode 0010011); `low` is bits 26 and 25, `f5` bits 31 to
/// 27.
fn immediate_name(f3: u32, low: u32, f5: u32) -> Option<(Name, Format)>
    ensures { kind_by (row_by table 0x13 0 f3 0 0 low f5) ≡ result }
{
    match f3 {
        0 => Some((Name::Addi, Format::I)),
        1 if low == 0 && f5 == 0 => Some((Name::Slli, Format::Shift)),
        2 => Some((Name::Slti, Format::I)),
        3 => Some((Name::Sltiu, Format::I)),
        4 => Some((Name::Xori, Format::I)),
        5 if low == 0 && f5 == 0 => Some((Name::Srli, Format::Shift)),
        5 if low == 0 && f5 == 8 => Some((Name::Srai, Format::Shift)),
        6 => Some((Name::Ori, Format::I)),
        7 => Some((Name::Andi, Format::I)),
        _ => None,
    }
}

/// The register-register instructions (opcode 0110011); `low` is bits 26 and 25, `f5` bits 31 to
/// 27.
fn register_name(f3: u32, low: u32, f5: u32) -> Option<(Name, Format)>
    ensures { kind_by (row_by table 0x33 0 f3 0 0 low f5) ≡ result }
{
    match (low, f5, f3) {
        (0, 0, 0) => Some((Name::Add, Format::R)),
        (0, 0, 1) => Some((Name::Sll, Format::R)),
        (0, 0, 2) => Some((Name::Slt, Format::R)),
        (0, 0, 3) => Some((Name::Sltu, Format::R)),
        (0, 0, 4) => Some((Name::Xor, Format::R)),
        (0, 0, 5) => Some((Name::Srl, Format::R)),
        (0, 0, 6) => Some((Name::Or, Format::R)),
        (0, 0, 7) => Some((Name::And, Format::R)),
        (0, 8, 0) => Some((Name::Sub, Format::R)),
        (0, 8, 5) => Some((Name::Sra, Format::R)),
        (1, 0, 0) => Some((Name::Mul, Format::R)),
        (1, 0, 1) => Some((Name::Mulh, Format::R)),
        (1, 0, 2) => Some((Name::Mulhsu, Format::R)),
        (1, 0, 3) => Some((Name::Mulhu, Format::R)),
        (1, 0, 4) => Some((Name::Div, Format::R)),
        (1, 0, 5) => Some((Name::Divu, Format::R)),
        (1, 0, 6) => Some((Name::Rem, Format::R)),
        (1, 0, 7) => Some((Name::Remu, Format::R)),
        _ => None,
    }
}

/// The atomic instructions (opcode 0101111); `f5` is bits 31 to 27.
fn atomic_name(f3: u32, rs2: u32, f5: u32) -> Option<(Name, Format)>
    ensures { kind_by (row_by table 0x2f 0 f3 0 rs2 0 f5) ≡ result }
{
    if f3 != 2 {
        return None;
    }
    match f5 {
        2 if rs2 == 0 => Some((Name::LrW, Format::Atomic)),
        3 => Some((Name::ScW, Format::Atomic)),
        1 => Some((Name::AmoswapW, Format::Atomic)),
        0 => Some((Name::AmoaddW, Format::Atomic)),
        4 => Some((Name::AmoxorW, Format::Atomic)),
        12 => Some((Name::AmoandW, Format::Atomic)),
        8 => Some((Name::AmoorW, Format::Atomic)),
        16 => Some((Name::AmominW, Format::Atomic)),
        20 => Some((Name::AmomaxW, Format::Atomic)),
        24 => Some((Name::AmominuW, Format::Atomic)),
        28 => Some((Name::AmomaxuW, Format::Atomic)),
        _ => None,
    }
}

/// `ecall` and `ebreak` (opcode 1110011), whole words.
fn system_name(rd: u32, f3: u32, rs1: u32, rs2: u32, low: u32, f5: u32) -> Option<(Name, Format)>
    ensures { kind_by (row_by table 0x73 rd f3 rs1 rs2 low f5) ≡ result }
{
    match (rd, f3, rs1, rs2, low, f5) {
        (0, 0, 0, 0, 0, 0) => Some((Name::Ecall, Format::Bare)),
        (0, 0, 0, 1, 0, 0) => Some((Name::Ebreak, Format::Bare)),
        _ => None,
    }
}

/// The stores (opcode 0100011).
fn store_name(f3: u32) -> Option<(Name, Format)>
    ensures { kind_by (row_by table 0x23 0 f3 0 0 0 0) ≡ result }
{
    match f3 {
        0 => Some((Name::Sb, Format::S)),
        1 => Some((Name::Sh, Format::S)),
        2 => Some((Name::Sw, Format::S)),
        _ => None,
    }
}

/// `jalr` (opcode 1100111).
fn jump_name(f3: u32) -> Option<(Name, Format)>
    ensures { kind_by (row_by table 0x67 0 f3 0 0 0 0) ≡ result }
{
    match f3 {
        0 => Some((Name::Jalr, Format::I)),
        _ => None,
    }
}

/// `fence` (opcode 0001111), whose other fields are ignored.
fn fence_name(f3: u32) -> Option<(Name, Format)>
    ensures { kind_by (row_by table 0xf 0 f3 0 0 0 0) ≡ result }
{
    match f3 {
        0 => Some((Name::Fence, Format::Bare)),
        _ => None,
    }
}

/// The row that the fields of a word select.
fn field_kind(
    op: u32,
    rd: u32,
    f3: u32,
    rs1: u32,
    rs2: u32,
    low: u32,
    f5: u32,
) -> Option<(Name, Format)>
    ensures { kind_by (row_by table op rd f3 rs1 rs2 low f5) ≡ result }
{
    match op {
        0x37 => Some((Name::Lui, Format::U)),
        0x17 => Some((Name::Auipc, Format::U)),
        0x6f => Some((Name::Jal, Format::J)),
        0x67 => jump_name(f3),
        0x63 => branch_name(f3),
        0x03 => load_name(f3),
        0x23 => store_name(f3),
        0x13 => immediate_name(f3, low, f5),
        0x33 => register_name(f3, low, f5),
        0x0f => fence_name(f3),
        0x73 => system_name(rd, f3, rs1, rs2, low, f5),
        0x2f => atomic_name(f3, rs2, f5),
        _ => None,
    }
}

/// The row that a word fits: its name and format.
#[tactic(auto, using(crate::proofs::Fields::table_by))]
pub fn kind_of(word: u32) -> Option<(Name, Format)>
    ensures { kind_by (row_in table word) ≡ result }
{
    field_kind(
        word % 128,
        (word >> 7) % 32,
        (word >> 12) % 8,
        (word >> 15) % 32,
        (word >> 20) % 32,
        (word >> 25) % 4,
        word >> 27,
    )
}
