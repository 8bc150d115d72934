//! Memory after some steps.
ghost use Rattle.std.specs.Prelude.{◌≡◌, ◌*◌, length, IfOk};

use crate::words::low;
use bn_base::Image;
use bus_memory::Memory;
use std::alloc::{AllocError, Global};
use std::io;

/// A step of memory.
#[derive(Clone, Copy, Drop)]
pub enum Step {
    /// Room for so many words from an address on.
    Room(u32, u32),
    /// A word at an address, whose page is made.
    Put(u32, u32),
}

/// The step that a line says.
pub fn step_of(verb: &str, words: &[&str]) -> Step {
    let (addr, number) = (low(words, 1), low(words, 2));
    match verb {
        "room" => Step::Room(addr, number),
        _ => Step::Put(addr, number),
    }
}

// Takes a step, if it is within the memory.
fn take(memory: &mut Memory, size: u32, step: Step) -> Result<(), AllocError>
    requires { 4 * length memory.old.words ≡ size }
    ensures { length memory.new.words ≡ length memory.old.words }
{
    match step {
        Step::Room(addr, count) if addr % 4 == 0 && addr as u64 + 4 * count as u64 <= size as u64 =>
            { memory.room(addr, count) }
        Step::Put(addr, value) if addr % 4 == 0 && memory.has_page(addr) => {
            memory.put(addr, value);
            Ok(())
        }
        _ => Ok(()),
    }
}

// The memory of a program after steps.
fn after(alloc: Global, image: &Image, steps: &[Step]) -> Result<Memory, AllocError>
    ensures { IfOk result (λ m. 4 * length m.words ≡ image.now.memory) }
{
    let size = image.memory();
    let mut memory = Memory::new(alloc, image)?;
    for step in steps {
        take(&mut memory, size, *step)?;
    }
    Ok(memory)
}

// Prints whether the page of an address is made.
fn print_page<R: Print>(rt: &R, memory: &Memory, addr: u32) -> io::Result<()> {
    println!(rt; "page {}", memory.has_page(addr))
}

// Prints the word at an address of a memory of this size.
fn print_word<R: Print>(rt: &R, memory: &Memory, size: u32, addr: u32) -> io::Result<()>
    requires { 4 * length memory.now.words ≡ size }
{
    if addr % 4 != 0 || addr >= size {
        return println!(rt; "no word of memory");
    }
    println!(rt; "word {:08x}", memory.word(addr))
}

/// Prints what a line wants to know of the memory after steps.
pub fn tell<R: Print>(
    rt: &R,
    alloc: Global,
    image: &Image,
    steps: &[Step],
    verb: &str,
    words: &[&str],
) -> anyhow::Result<()> {
    let memory = after(alloc, image, steps)?;
    match verb {
        "page" => Ok(print_page(rt, &memory, low(words, 1))?),
        _ => Ok(print_word(rt, &memory, image.memory(), low(words, 1))?),
    }
}
