// The words of a line.
use std::alloc::{AllocError, Global};

/// The words of a line.
pub fn words_of<'a>(alloc: Global, line: &'a str) -> Result<Vec<&'a str>, AllocError> {
    line.split_whitespace().collect(alloc)
}

/// A word by its place; none is empty.
pub fn word<'a>(words: &[&'a str], place: usize) -> &'a str {
    words.get(place).copied().unwrap_or("")
}

/// A word as a hexadecimal number; one that is none is 0.
pub fn wide(words: &[&str], place: usize) -> u64 {
    u64::from_str_radix(word(words, place), 16).unwrap_or(0)
}

/// The same of 32 bits.
pub fn low(words: &[&str], place: usize) -> u32 {
    u32::from_str_radix(word(words, place), 16).unwrap_or(0)
}

/// A word as a decimal number; one that is none is 0.
pub fn decimal(words: &[&str], place: usize) -> u64 {
    word(words, place).parse::<u64>().unwrap_or(0)
}
