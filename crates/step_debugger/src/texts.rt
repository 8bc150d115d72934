//! The lines that the debugger prints. `specs/Answers.antt` pins each byte.
ghost use Rattle.std.specs.Prelude.{◌≡◌, ◌<◌, ◌++◌, OnOk};
ghost use Rattle.step_debugger.specs.Answers.{point_text, hart_text, waits_text, stop_text, at_text, address_text, word_text, register_text, two_text, four_text, half_text, pc_text, readiness_text, place_text, hart_done_text};

use bn_base::{Addr, HartId, Ic, Register, Registers};
use joint_replay::Readiness;
use rv_text::{Text, register_name};
use std::alloc::AllocError;

#[tactic(auto, unfolding(crate::specs::Answers::point_text))]
fn push_point(text: &mut Text, hart: HartId, ic: Ic) -> Result<(), AllocError>
    ensures { OnOk result (text.new ≡ text.old ++ point_text hart ic) }
{
    text.push_decimal(u64::from(hart))?;
    text.push_str(" ")?;
    text.push_decimal(ic)
}

/// The line of a chosen hart.
#[tactic(auto, unfolding(crate::specs::Answers::hart_text))]
pub(crate) fn push_hart(text: &mut Text, hart: HartId) -> Result<(), AllocError>
    ensures { OnOk result (text.new ≡ text.old ++ hart_text hart) }
{
    text.push_str("hart ")?;
    text.push_decimal(u64::from(hart))?;
    text.push_str("\n")
}

/// The line of a hart that waits for an instruction of another one.
#[tactic(auto, unfolding(crate::specs::Answers::waits_text))]
pub(crate) fn push_waits(text: &mut Text, hart: HartId, ic: Ic) -> Result<(), AllocError>
    ensures { OnOk result (text.new ≡ text.old ++ waits_text hart ic) }
{
    text.push_str("waits ")?;
    push_point(text, hart, ic)?;
    text.push_str("\n")
}

/// The line of a stop at a breakpoint.
#[tactic(auto, unfolding(crate::specs::Answers::stop_text))]
pub(crate) fn push_stop(text: &mut Text, hart: HartId, ic: Ic, pc: Addr) -> Result<(), AllocError>
    ensures { OnOk result (text.new ≡ text.old ++ stop_text hart ic pc) }
{
    text.push_str("stop ")?;
    push_point(text, hart, ic)?;
    text.push_str(" ")?;
    text.push_hex8(pc)?;
    text.push_str("\n")
}

/// The line of a position that was gone back to.
#[tactic(auto, unfolding(crate::specs::Answers::at_text))]
pub(crate) fn push_position(text: &mut Text, position: u64) -> Result<(), AllocError>
    ensures { OnOk result (text.new ≡ text.old ++ at_text position) }
{
    text.push_str("at ")?;
    text.push_decimal(position)?;
    text.push_str("\n")
}

/// The line of a word and an address.
#[tactic(auto, unfolding(crate::specs::Answers::address_text))]
pub(crate) fn push_address(text: &mut Text, word: &str, addr: Addr) -> Result<(), AllocError>
    ensures { OnOk result (text.new ≡ text.old ++ address_text word.now addr) }
{
    text.push_str(word)?;
    text.push_hex8(addr)?;
    text.push_str("\n")
}

/// The line of a word of the memory.
#[tactic(auto, unfolding(crate::specs::Answers::word_text))]
pub(crate) fn push_word(text: &mut Text, addr: Addr, word: Option<u32>) -> Result<(), AllocError>
    ensures { OnOk result (text.new ≡ text.old ++ word_text addr word) }
{
    text.push_hex8(addr)?;
    match word {
        None => text.push_str(" unknown\n"),
        Some(word) => {
            text.push_str("=")?;
            text.push_hex8(word)?;
            text.push_str("\n")
        }
    }
}

#[tactic(auto, unfolding(crate::specs::Answers::register_text))]
fn push_register(text: &mut Text, x: &Registers, register: u8) -> Result<(), AllocError>
    requires { register < 32 }
    ensures { OnOk result (text.new ≡ text.old ++ register_text x.now register) }
{
    text.push_str(register_name(register))?;
    text.push_str("=")?;
    text.push_hex8(x.get(Register::new(register)))
}

#[tactic(auto, unfolding(crate::specs::Answers::two_text))]
fn push_two(text: &mut Text, x: &Registers, first: u8) -> Result<(), AllocError>
    requires { first < 31 }
    ensures { OnOk result (text.new ≡ text.old ++ two_text x.now first) }
{
    push_register(text, x, first)?;
    text.push_str(" ")?;
    push_register(text, x, first + 1)
}

#[tactic(auto, unfolding(crate::specs::Answers::four_text))]
fn push_four(text: &mut Text, x: &Registers, first: u8) -> Result<(), AllocError>
    requires { first < 29 }
    ensures { OnOk result (text.new ≡ text.old ++ four_text x.now first) }
{
    push_two(text, x, first)?;
    text.push_str(" ")?;
    push_two(text, x, first + 2)?;
    text.push_str("\n")
}

/// Four lines of registers.
#[tactic(auto, unfolding(crate::specs::Answers::half_text))]
pub(crate) fn push_half(text: &mut Text, x: &Registers, first: u8) -> Result<(), AllocError>
    requires { first < 17 }
    ensures { OnOk result (text.new ≡ text.old ++ half_text x.now first) }
{
    push_four(text, x, first)?;
    push_four(text, x, first + 4)?;
    push_four(text, x, first + 8)?;
    push_four(text, x, first + 12)
}

// The pc of a hart's next instruction; dashes if it is an ordering point, of which only the count is known.
fn push_pc(text: &mut Text, pc: Option<Addr>) -> Result<(), AllocError>
    ensures { OnOk result (text.new ≡ text.old ++ pc_text pc) }
{
    match pc {
        None => text.push_str("--------"),
        Some(pc) => text.push_hex8(pc),
    }
}

fn push_readiness(text: &mut Text, ready: Readiness) -> Result<(), AllocError>
    ensures { OnOk result (text.new ≡ text.old ++ readiness_text ready) }
{
    match ready {
        Readiness::Ready => text.push_str("ready\n"),
        Readiness::Waits { hart, ic } => push_waits(text, hart, ic),
        Readiness::Done => text.push_str("done\n"),
    }
}

/// The line of a hart: the count and the pc of what comes next, and whether it waits.
#[tactic(auto, unfolding(crate::specs::Answers::place_text))]
pub(crate) fn push_place(
    text: &mut Text,
    hart: HartId,
    ic: Ic,
    pc: Option<Addr>,
    ready: Readiness,
) -> Result<(), AllocError>
    ensures { OnOk result (text.new ≡ text.old ++ place_text hart ic pc ready) }
{
    push_point(text, hart, ic)?;
    text.push_str(" ")?;
    push_pc(text, pc)?;
    text.push_str(" ")?;
    push_readiness(text, ready)
}

/// The line of a hart that is done.
#[tactic(auto, unfolding(crate::specs::Answers::hart_done_text))]
pub(crate) fn push_hart_done(text: &mut Text, hart: HartId) -> Result<(), AllocError>
    ensures { OnOk result (text.new ≡ text.old ++ hart_done_text hart) }
{
    text.push_decimal(u64::from(hart))?;
    text.push_str(" done\n")
}
