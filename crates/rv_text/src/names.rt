//! The names of registers and instructions, as assemblers spell them.
ghost use Rattle.std.specs.Prelude.{◌≡◌, ◌<◌};
ghost use Rattle.rv_text.specs.Names.{register_name, mnemonic, ordering};

use rv_decode::Name;

/// The name of a register, x0 to x31, in the RISC-V calling convention (RISC-V unprivileged
/// specification, chapter 25).
#[tactic(auto, unfolding(crate::specs::Names::register_name))]
pub fn register_name(register: u8) -> &'static str
    requires { register < 32 }
    ensures { result.now ≡ register_name register }
{
    match register {
        0 => "zero",
        1 => "ra",
        2 => "sp",
        3 => "gp",
        4 => "tp",
        5 => "t0",
        6 => "t1",
        7 => "t2",
        8 => "s0",
        9 => "s1",
        10 => "a0",
        11 => "a1",
        12 => "a2",
        13 => "a3",
        14 => "a4",
        15 => "a5",
        16 => "a6",
        17 => "a7",
        18 => "s2",
        19 => "s3",
        20 => "s4",
        21 => "s5",
        22 => "s6",
        23 => "s7",
        24 => "s8",
        25 => "s9",
        26 => "s10",
        27 => "s11",
        28 => "t3",
        29 => "t4",
        30 => "t5",
        _ => "t6",
    }
}

/// The name of an instruction, without aq and rl.
#[tactic(auto, unfolding(crate::specs::Names::mnemonic))]
pub fn mnemonic(name: Name) -> &'static str
    ensures { result.now ≡ mnemonic name }
{
    match name {
        Name::Lui => "lui",
        Name::Auipc => "auipc",
        Name::Jal => "jal",
        Name::Jalr => "jalr",
        Name::Beq => "beq",
        Name::Bne => "bne",
        Name::Blt => "blt",
        Name::Bge => "bge",
        Name::Bltu => "bltu",
        Name::Bgeu => "bgeu",
        Name::Lb => "lb",
        Name::Lh => "lh",
        Name::Lw => "lw",
        Name::Lbu => "lbu",
        Name::Lhu => "lhu",
        Name::Sb => "sb",
        Name::Sh => "sh",
        Name::Sw => "sw",
        Name::Addi => "addi",
        Name::Slti => "slti",
        Name::Sltiu => "sltiu",
        Name::Xori => "xori",
        Name::Ori => "ori",
        Name::Andi => "andi",
        Name::Slli => "slli",
        Name::Srli => "srli",
        Name::Srai => "srai",
        Name::Add => "add",
        Name::Sll => "sll",
        Name::Slt => "slt",
        Name::Sltu => "sltu",
        Name::Xor => "xor",
        Name::Srl => "srl",
        Name::Or => "or",
        Name::And => "and",
        Name::Sub => "sub",
        Name::Sra => "sra",
        Name::Mul => "mul",
        Name::Mulh => "mulh",
        Name::Mulhsu => "mulhsu",
        Name::Mulhu => "mulhu",
        Name::Div => "div",
        Name::Divu => "divu",
        Name::Rem => "rem",
        Name::Remu => "remu",
        Name::Fence => "fence",
        Name::Ecall => "ecall",
        Name::Ebreak => "ebreak",
        Name::LrW => "lr.w",
        Name::ScW => "sc.w",
        Name::AmoswapW => "amoswap.w",
        Name::AmoaddW => "amoadd.w",
        Name::AmoxorW => "amoxor.w",
        Name::AmoandW => "amoand.w",
        Name::AmoorW => "amoor.w",
        Name::AmominW => "amomin.w",
        Name::AmomaxW => "amomax.w",
        Name::AmominuW => "amominu.w",
        Name::AmomaxuW => "amomaxu.w",
    }
}

/// What the bits aq and rl add to the name of an atomic instruction.
#[tactic(auto, unfolding(crate::specs::Names::ordering))]
pub fn ordering(aq: bool, rl: bool) -> &'static str
    ensures { result.now ≡ ordering aq rl }
{
    match (aq, rl) {
        (false, false) => "",
        (true, false) => ".aq",
        (false, true) => ".rl",
        (true, true) => ".aqrl",
    }
}
