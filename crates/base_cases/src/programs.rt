//! Programs and system calls.
use crate::settings::checked;
use crate::words::{low, wide, word};
use bn_base::Image;
use elf_loader::load;
use std::alloc::Global;
use std::io;
use system_calls::{Kernel, plan};

/// Makes of a file's bytes what a line says: others, or its own and these after them.
pub fn make(alloc: Global, file: &mut Vec<u8>, verb: &str, words: &[&str]) -> anyhow::Result<()> {
    let others = hex::decode(alloc, word(words, 1))?;
    if verb == "file" {
        file.clear();
    }
    Ok(file.extend_from_slice(&others)?)
}

/// A copy of the program of a file, with the settings of a line.
pub fn loaded(alloc: Global, file: &[u8], words: &[&str]) -> anyhow::Result<Image> {
    let settings = checked(words)?;
    let image = load(alloc, file, &settings)?;
    Ok(image.copy()?)
}

// Prints what stands at an address.
fn print_at<R: Print>(rt: &R, image: &Image, addr: u32) -> io::Result<()> {
    let (first, store) = (image.first(addr), image.may_store(addr));
    match image.code(addr) {
        Some(word) => println!(rt; "{first:08x} code {word:08x} store {store}"),
        None => println!(rt; "{first:08x} no code store {store}"),
    }
}

// Prints the bounds of a program.
fn print_bounds<R: Print>(rt: &R, image: &Image) -> io::Result<()> {
    let (start, limit) = (image.heap_start(), image.heap_limit());
    print!(rt; "entry {:08x} heap {start:08x} {limit:08x}", image.entry())?;
    let (memory, harts) = (image.memory(), image.harts());
    let segments = image.segments().len();
    println!(rt; " memory {memory:08x} harts {harts} segments {segments}")
}

// Prints what a system call does.
fn print_call<R: Print>(rt: &R, image: &Image, words: &[&str]) -> io::Result<()> {
    let args = [low(words, 2), low(words, 3), low(words, 4)];
    let kernel = Kernel {
        brk: low(words, 5),
        input_left: wide(words, 6),
        out_len: wide(words, 7),
        err_len: wide(words, 8),
    };
    println!(rt; "{:?}", plan(low(words, 1), args, &kernel, image))
}

/// Prints what a line wants to know of a program.
pub fn tell<R: Print>(rt: &R, image: &Image, verb: &str, words: &[&str]) -> io::Result<()> {
    match verb {
        "at" => print_at(rt, image, low(words, 1)),
        "bounds" => print_bounds(rt, image),
        "mapped" => println!(rt; "mapped {}", image.may_load(low(words, 1))),
        _ => print_call(rt, image, words),
    }
}
