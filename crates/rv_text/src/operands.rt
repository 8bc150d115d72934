//! The texts of operands, each as its kind is spelled.
ghost use Rattle.std.specs.Prelude.{◌≡◌, ◌++◌, ◌<◌, OnOk, codes};
ghost use Rattle.rv_text.specs.Names.{register_name};
ghost use Rattle.rv_text.specs.Instructions.{first_operand, register_operand, number_operand, offset_operand, memory_operand, target_operand, upper_operand};
ghost use Rattle.rv_text.specs.Texts.{BeginsWith};

use crate::names::register_name;
use crate::text::Text;
use std::alloc::AllocError;

/// The first operand, a register.
#[tactic(auto, unfolding(crate::specs::Instructions::first_operand))]
pub fn write_first(register: u8, text: &mut Text) -> Result<(), AllocError>
    requires { register < 32 }
    ensures ok { OnOk result (text.new ≡ text.old ++ first_operand register) }
    ensures begins { BeginsWith text.old text.new }
{
    text.push_str(" ")?;
    text.push_str(register_name(register))
}

/// A further operand that is a register.
#[tactic(auto, unfolding(crate::specs::Instructions::register_operand))]
pub fn write_register(register: u8, text: &mut Text) -> Result<(), AllocError>
    requires { register < 32 }
    ensures ok { OnOk result (text.new ≡ text.old ++ register_operand register) }
    ensures begins { BeginsWith text.old text.new }
{
    text.push_str(",")?;
    text.push_str(register_name(register))
}

/// An operand that is a number.
#[tactic(auto, unfolding(crate::specs::Instructions::number_operand))]
pub fn write_number(number: i32, text: &mut Text) -> Result<(), AllocError>
    ensures ok { OnOk result (text.new ≡ text.old ++ number_operand number) }
    ensures begins { BeginsWith text.old text.new }
{
    text.push_str(",")?;
    text.push_signed_decimal(number)
}

/// A register in brackets, and what opens them.
fn write_enclosed(opening: &str, register: u8, text: &mut Text) -> Result<(), AllocError>
    requires { register < 32 }
    ensures ok { OnOk result (text.new ≡ text.old ++ (opening.now ++ register_name register ++ codes ")")) }
    ensures begins { BeginsWith text.old text.new }
{
    text.push_str(opening)?;
    text.push_str(register_name(register))?;
    text.push_str(")")
}

/// An operand that is the memory at an offset from a register.
#[tactic(auto, unfolding(crate::specs::Instructions::offset_operand, crate::specs::Instructions::number_operand))]
pub fn write_offset(offset: i32, register: u8, text: &mut Text) -> Result<(), AllocError>
    requires { register < 32 }
    ensures ok { OnOk result (text.new ≡ text.old ++ offset_operand offset register) }
    ensures begins { BeginsWith text.old text.new }
{
    write_number(offset, text)?;
    write_enclosed("(", register, text)
}

/// An operand that is the memory at a register.
#[tactic(auto, unfolding(crate::specs::Instructions::memory_operand))]
pub fn write_memory(register: u8, text: &mut Text) -> Result<(), AllocError>
    requires { register < 32 }
    ensures ok { OnOk result (text.new ≡ text.old ++ memory_operand register) }
    ensures begins { BeginsWith text.old text.new }
{
    write_enclosed(",(", register, text)
}

/// An operand that is the address at an offset from the pc, modulo 2^32.
#[tactic(auto, unfolding(crate::specs::Instructions::target_operand))]
pub fn write_target(pc: u32, offset: i32, text: &mut Text) -> Result<(), AllocError>
    ensures ok { OnOk result (text.new ≡ text.old ++ target_operand pc offset) }
    ensures begins { BeginsWith text.old text.new }
{
    text.push_str(",")?;
    text.push_hex8(pc.wrapping_add(offset.cast_unsigned()))
}

/// An operand that is the upper 20 bits of a number.
#[tactic(auto, unfolding(crate::specs::Instructions::upper_operand))]
pub fn write_upper(number: i32, text: &mut Text) -> Result<(), AllocError>
    ensures ok { OnOk result (text.new ≡ text.old ++ upper_operand number) }
    ensures begins { BeginsWith text.old text.new }
{
    text.push_str(",0x")?;
    text.push_hex(number.cast_unsigned() / 4096)
}
