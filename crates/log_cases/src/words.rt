// The words of a line.
use std::alloc::{AllocError, Global};

/// The words of a line.
pub fn words_of<'a>(alloc: Global, line: &'a str) -> Result<Vec<&'a str>, AllocError> {
    line.split_whitespace().collect(alloc)
}

/// A word by its place; none is empty.
pub fn word<'a>(words: &[&'a str], place: usize) -> &'a str {
    words.get(place).copied().unwrap_or("")
}

/// The words from a place on.
pub fn rest<'a>(words: &'a [&'a str], place: usize) -> &'a [&'a str] {
    words.get(place..).unwrap_or(&[])
}

/// A word as a decimal number; one that is none is 0.
pub fn number(words: &[&str], place: usize) -> u64 {
    word(words, place).parse::<u64>().unwrap_or(0)
}

/// Code words from their digits, the most significant first.
pub fn code(alloc: Global, words: &[&str]) -> Result<Vec<u32>, AllocError> {
    let mut code = Vec::new(alloc);
    for word in words {
        code.push(u32::from_str_radix(word, 16).unwrap_or(0))?;
    }
    Ok(code)
}
