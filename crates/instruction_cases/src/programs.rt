//! Programs, and what stands in them.
use crate::rows;
use crate::words::{low, number_or, word};
use bn_base::{Fault, HartState, Image, Registers, Segment, Settings};
use rv_meaning::{Ask, Want};
use std::alloc::{AllocError, Global};
use std::io;

/// The program of these words at 0x10000.
pub fn program(alloc: Global, mut words: Vec<u32>) -> Result<Image, AllocError> {
    words.truncate(64);
    let count = words.len() as u32;
    let segment = Segment::new(0x10000, words, count, true, false);
    let mut segments = Vec::new(alloc);
    segments.push(segment)?;
    Ok(Image::new(segments, 0x10000, &Settings::default()))
}

/// The program of these words at 0x10000, and of others at 0x11000.
pub fn two_segments(
    alloc: Global,
    mut words: Vec<u32>,
    mut others: Vec<u32>,
) -> Result<Image, AllocError> {
    words.truncate(64);
    others.truncate(64);
    let count = words.len() as u32;
    let first = Segment::new(0x10000, words, count, true, false);
    let count = others.len() as u32;
    let second = Segment::new(0x11000, others, count, true, false);
    let mut segments = Vec::new(alloc);
    segments.push(first)?;
    segments.push(second)?;
    Ok(Image::new(segments, 0x10000, &Settings::default()))
}

// Prints what stands at an address.
fn print_at<R: Print>(rt: &R, image: &Image, addr: u32) -> io::Result<()> {
    let (first, store) = (image.first(addr), image.may_store(addr));
    match image.code(addr) {
        Some(word) => println!(rt; "{first:08x} code {word:08x} store {store}"),
        None => println!(rt; "{first:08x} no code store {store}"),
    }
}

// Prints the first addresses of a program and of its heap.
fn print_begins<R: Print>(rt: &R, image: &Image) -> io::Result<()> {
    let (entry, heap) = (image.entry(), image.heap_start());
    println!(rt; "entry {entry:08x} heap {heap:08x}")
}

// What a line has an ask want.
fn want_of(words: &[&str]) -> Want {
    match word(words, 3) {
        "breakpoint" => Want::Faulted {
            kind: Fault::Breakpoint,
            value: low(words, 4),
        },
        "store" => Want::Store {
            addr: low(words, 4),
            width: (low(words, 5) % 256) as u8,
            value: 0,
        },
        _ => Want::Cut,
    }
}

// Whether an ask that a line says is orderly.
fn is_orderly(image: &Image, words: &[&str]) -> bool {
    let state = HartState {
        pc: 0x10000,
        x: Registers::new([0; 32]),
        ic: 5,
    };
    let want = want_of(words);
    let ask = Ask { state, want };
    ask.is_orderly(image, number_or(words, 1, 0), number_or(words, 2, 0))
}

// Prints whether an ask that a line says is orderly.
fn print_orderly<R: Print>(rt: &R, image: &Image, words: &[&str]) -> io::Result<()> {
    println!(rt; "orderly {}", is_orderly(image, words))
}

/// Prints what a line wants to know of a program.
pub fn tell<R: Print>(
    rt: &R,
    alloc: Global,
    image: &Image,
    verb: &str,
    words: &[&str],
) -> anyhow::Result<()> {
    match verb {
        "at" => Ok(print_at(rt, image, low(words, 1))?),
        "begins" => Ok(print_begins(rt, image)?),
        "orderly" => Ok(print_orderly(rt, image, words)?),
        _ => rows::print_fetched(rt, alloc, image, verb, words),
    }
}
