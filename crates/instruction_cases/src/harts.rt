//! Harts that run, and what they ask.
ghost use Rattle.std.specs.Prelude.{◌<◌, ◌^◌};

use crate::words::{low, low_or, number_or, word};
use bn_base::{HartState, Image, Register, Registers};
use rv_meaning::{Ask, DecodedImage, quiet_run};
use rv_text::register_name;
use std::alloc::{AllocError, Global};
use std::io;

/// The hart of the words from a place on: a1, a2, a7, the pc and the count.
pub fn hart_of(words: &[&str], place: usize) -> HartState
    requires { place < 2 ^ 8 }
{
    let mut x = Registers::new([0; 32]);
    x.put(Register::new(11), low(words, place));
    x.put(Register::new(12), low(words, place + 1));
    x.put(Register::new(17), low(words, place + 2));
    HartState {
        pc: low_or(words, place + 3, 0x10000),
        x,
        ic: number_or(words, place + 4, 5),
    }
}

// Prints a register that isn't 0.
fn print_register<R: Print>(rt: &R, number: u8, value: u32) -> io::Result<()>
    requires { number < 32 }
{
    if value == 0 {
        return Ok(());
    }
    print!(rt; " {}={value:08x}", register_name(number))
}

// Prints the registers that aren't 0, and ends the line.
fn print_registers<R: Print>(rt: &R, x: &Registers) -> io::Result<()> {
    for number in 1..32u8 {
        print_register(rt, number, x.get(Register::new(number)))?;
    }
    println!(rt; "")
}

/// Prints a state: the pc, the count, and the registers that aren't 0.
pub fn print_state<R: Print>(rt: &R, state: &HartState) -> io::Result<()> {
    print!(rt; "{:08x} {}", state.pc, state.ic)?;
    print_registers(rt, &state.x)
}

// What may be shared among threads.
fn shared<T: Sync>(_value: &T) {}

// What a hart asks by code of which so many words are decoded ahead.
fn ahead(
    alloc: Global,
    image: &Image,
    limit: Option<u32>,
    budget: u64,
    mut state: HartState,
) -> Result<Ask, AllocError> {
    let decoded = match limit {
        Some(limit) => DecodedImage::with_limit(alloc, image, limit)?,
        None => DecodedImage::new(alloc, image)?,
    };
    shared(&decoded);
    let want = decoded.quiet_run_in_place(&mut state, budget);
    Ok(Ask { state, want })
}

/// What the hart of a line asks.
pub fn asked(alloc: Global, image: &Image, verb: &str, words: &[&str]) -> Result<Ask, AllocError> {
    if verb == "run" {
        let budget = number_or(words, 1, 0);
        return Ok(quiet_run(image, hart_of(words, 2), budget));
    }
    let limit = u32::from_str_radix(word(words, 1), 16).ok();
    let budget = number_or(words, 2, 0);
    ahead(alloc, image, limit, budget, hart_of(words, 3))
}

/// Prints what a hart asks, and its state.
pub fn print_ask<R: Print>(rt: &R, ask: &Ask) -> io::Result<()> {
    print!(rt; "{:?} ", ask.want)?;
    print_state(rt, &ask.state)
}
