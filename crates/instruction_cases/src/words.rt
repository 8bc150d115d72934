// The words of a line.
use std::alloc::{AllocError, Global};

/// The words of a line.
pub fn words_of<'a>(alloc: Global, line: &'a str) -> Result<Vec<&'a str>, AllocError> {
    line.split_whitespace().collect(alloc)
}

/// A word by its place; none is empty.
pub fn word<'a>(words: &[&'a str], place: usize) -> &'a str {
    words.get(place).copied().unwrap_or("")
}

/// A word as a hexadecimal number; one that is none is the other number.
pub fn number_or(words: &[&str], place: usize, other: u64) -> u64 {
    u64::from_str_radix(word(words, place), 16).unwrap_or(other)
}

/// The same of 32 bits.
pub fn low_or(words: &[&str], place: usize, other: u32) -> u32 {
    u32::from_str_radix(word(words, place), 16).unwrap_or(other)
}

/// A word as a hexadecimal number of 32 bits; one that is none is 0.
pub fn low(words: &[&str], place: usize) -> u32 {
    low_or(words, place, 0)
}

/// The code words of a line.
pub fn code(alloc: Global, words: &[&str]) -> Result<Vec<u32>, AllocError> {
    let mut code = Vec::new(alloc);
    for place in 1..words.len() {
        code.push(low(words, place))?;
    }
    Ok(code)
}
