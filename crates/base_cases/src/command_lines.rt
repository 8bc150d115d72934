//! The words of a command line.
use command_words::read_words;
use std::alloc::{AllocError, Global};
use std::io;

// The words of a text, between whose bars they stand.
fn words_in(alloc: Global, text: &str) -> Result<Vec<String>, AllocError> {
    let mut words = Vec::new(alloc);
    for word in text.split('|') {
        words.push(String::from_str(alloc, word)?)?;
    }
    Ok(words)
}

// The words of a command line that a line says; `words` alone has none.
fn words_of(alloc: Global, line: &str) -> Result<Vec<String>, AllocError> {
    match line.strip_prefix("words ") {
        Some(text) => words_in(alloc, text),
        None => Ok(Vec::new(alloc)),
    }
}

// Prints what words ask for.
fn print_read<R: Print>(rt: &R, alloc: Global, words: &[String]) -> io::Result<()> {
    match read_words(alloc, words) {
        Ok(command) => println!(rt; "{command:?}"),
        Err(error) => println!(rt; "{error:?}"),
    }
}

/// Prints what the words of a line ask for.
pub fn tell<R: Print>(rt: &R, alloc: Global, line: &str) -> anyhow::Result<()> {
    let words = words_of(alloc, line)?;
    Ok(print_read(rt, alloc, &words)?)
}
