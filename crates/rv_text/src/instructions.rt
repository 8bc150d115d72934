//! The text of an instruction, as an assembler takes it. `specs/` pins each byte.
ghost use Rattle.std.specs.Prelude.{◌≡◌, ◌++◌, ◌<◌, OnOk, OnErr};
ghost use Rattle.rv_decode.specs.Seen.{seen};
ghost use Rattle.rv_text.specs.Instructions.{is_relative, is_load_reserved, first_operand, register_operand, immediate_operands, atomic_operands, leading_operands, last_operands, operands, instruction_text};
ghost use Rattle.rv_text.specs.Texts.{BeginsWith};

use crate::names::{mnemonic, ordering};
use crate::operands::{
    write_first, write_memory, write_number, write_offset, write_register, write_target,
    write_upper,
};
use crate::text::Text;
use rv_decode::{Format, Instr, Name};
use std::alloc::AllocError;

/// Whether the immediate of format I is an offset from rs1: for `jalr` and the loads.
fn is_relative(name: Name) -> bool
    ensures { result ≡ is_relative name }
{
    matches!(
        name,
        Name::Jalr | Name::Lb | Name::Lh | Name::Lw | Name::Lbu | Name::Lhu
    )
}

/// Whether it is `lr.w`, which has no second register.
fn is_load_reserved(name: Name) -> bool
    ensures { result ≡ is_load_reserved name }
{
    matches!(name, Name::LrW)
}

/// After rd, the operands of format I.
fn write_immediate(instr: &Instr, text: &mut Text) -> Result<(), AllocError>
    ensures ok { OnOk result (text.new ≡
        text.old ++ immediate_operands (is_relative instr.now.name) (seen instr.now)) }
    ensures begins { BeginsWith text.old text.new }
{
    if is_relative(instr.name) {
        return write_offset(instr.imm, instr.rs1, text);
    }
    write_register(instr.rs1, text)?;
    write_number(instr.imm, text)
}

/// After rd, the operands of an atomic instruction.
fn write_atomic(instr: &Instr, text: &mut Text) -> Result<(), AllocError>
    ensures ok { OnOk result (text.new ≡
        text.old ++ atomic_operands (is_load_reserved instr.now.name) (seen instr.now)) }
    ensures begins { BeginsWith text.old text.new }
{
    if is_load_reserved(instr.name) {
        return write_memory(instr.rs1, text);
    }
    write_register(instr.rs2, text)?;
    write_memory(instr.rs1, text)
}

/// The first two operands, both registers.
fn write_registers(first: u8, second: u8, text: &mut Text) -> Result<(), AllocError>
    requires { (first < 32) × (second < 32) }
    ensures ok { OnOk result (text.new ≡
        text.old ++ (first_operand first ++ register_operand second)) }
    ensures begins { BeginsWith text.old text.new }
{
    write_first(first, text)?;
    write_register(second, text)
}

/// The operands of an instruction before its last one: registers.
fn write_leading(format: Format, instr: &Instr, text: &mut Text) -> Result<(), AllocError>
    ensures ok { OnOk result (text.new ≡ text.old ++ leading_operands format (seen instr.now)) }
    ensures begins { BeginsWith text.old text.new }
{
    match format {
        Format::U | Format::J | Format::I | Format::Atomic => write_first(instr.rd, text),
        Format::S => write_first(instr.rs2, text),
        Format::B => write_registers(instr.rs1, instr.rs2, text),
        Format::Shift | Format::R => write_registers(instr.rd, instr.rs1, text),
        Format::Bare => Ok(()),
    }
}

/// What follows them, at `pc`.
fn write_last(format: Format, instr: &Instr, pc: u32, text: &mut Text) -> Result<(), AllocError>
    ensures ok { OnOk result (text.new ≡ text.old ++ last_operands format pc (seen instr.now)) }
    ensures begins { BeginsWith text.old text.new }
{
    match format {
        Format::U => write_upper(instr.imm, text),
        Format::J | Format::B => write_target(pc, instr.imm, text),
        Format::I => write_immediate(instr, text),
        Format::S => write_offset(instr.imm, instr.rs1, text),
        Format::Shift => write_number(instr.imm, text),
        Format::R => write_register(instr.rs2, text),
        Format::Bare => Ok(()),
        Format::Atomic => write_atomic(instr, text),
    }
}

/// The operands of an instruction at `pc`.
#[tactic(auto, using(crate::proofs::Parted::operands_in_two))]
fn write_operands(format: Format, instr: &Instr, pc: u32, text: &mut Text) -> Result<(), AllocError>
    ensures ok { OnOk result (text.new ≡ text.old ++ operands format pc (seen instr.now)) }
    ensures begins { BeginsWith text.old text.new }
{
    write_leading(format, instr, text)?;
    write_last(format, instr, pc, text)
}

/// The text of an instruction; an error may leave a part of it.
#[tactic(auto, unfolding(crate::specs::Instructions::instruction_text))]
pub fn write_instr_parts(instr: &Instr, pc: u32, text: &mut Text) -> Result<(), AllocError>
    ensures ok { OnOk result (text.new ≡ text.old ++ instruction_text pc (seen instr.now)) }
    ensures begins { BeginsWith text.old text.new }
{
    text.push_str(mnemonic(instr.name))?;
    text.push_str(ordering(instr.aq, instr.rl))?;
    write_operands(instr.name.format(), instr, pc, text)
}

/// Appends the text of an instruction at `pc`, as an assembler takes it: registers by name,
/// immediates and shift amounts in decimal, the targets of branches and `jal` as eight hexadecimal
/// digits. No pseudo-instruction is written. When out of memory, the text is unchanged.
pub fn write_instr(instr: &Instr, pc: u32, text: &mut Text) -> Result<(), AllocError>
    ensures ok { OnOk result (text.new ≡ text.old ++ instruction_text pc (seen instr.now)) }
    ensures err { OnErr result (text.new ≡ text.old) }
{
    let mark = text.len();
    let written = write_instr_parts(instr, pc, text);
    if written.is_err() {
        text.truncate(mark);
    }
    written
}
