//! Stores and streams in memory, whose calls fail as a line says.
use crate::words::{wide, word};
use bn_outside::{
    MemorySink, MemorySource, MemoryStore, NoSink, Sink, Source, Store, read_to_end, send_all,
};
use std::alloc::{AllocError, Global};
use std::io;
use std::str::from_utf8;

// The numbers of the calls that fail, between commas; a word that is no number is none.
fn failing(alloc: Global, text: &str) -> Result<Vec<u64>, AllocError> {
    let mut calls = Vec::new(alloc);
    for number in text.split(',') {
        if let Ok(number) = u64::from_str_radix(number, 16) {
            calls.push(number)?;
        }
    }
    Ok(calls)
}

// Prints a text after what it is.
fn print_text<R: Print>(rt: &R, what: &str, bytes: &[u8]) -> io::Result<()> {
    println!(rt; "{what} {}", from_utf8(bytes).unwrap_or("no text"))
}

// Prints the text that a store has under a name, after how it was found.
fn print_file<R: Print>(rt: &R, how: &str, name: &str, bytes: &[u8]) -> io::Result<()> {
    print!(rt; "{how} ")?;
    print_text(rt, name, bytes)
}

// Prints what a load gives.
fn print_load<R: Print, S: Store>(
    rt: &R,
    alloc: Global,
    files: &mut S,
    name: &str,
    limit: usize,
) -> io::Result<()> {
    match files.load(alloc, name, limit) {
        Ok(bytes) => print_file(rt, "load", name, &bytes),
        Err(error) => println!(rt; "load {name} {error:?}"),
    }
}

// Prints what comes of a save.
fn print_save<R: Print, S: Store>(rt: &R, files: &mut S, name: &str, text: &str) -> io::Result<()> {
    println!(rt; "save {name} {:?}", files.save(name, text.as_bytes()))
}

// Prints what a store has under a name, without a call of it.
fn print_held<R: Print>(rt: &R, files: &MemoryStore, name: &str) -> io::Result<()> {
    match files.bytes(name) {
        Some(bytes) => print_file(rt, "held", name, bytes),
        None => println!(rt; "held {name} nothing"),
    }
}

// Prints what comes of a call of a store.
fn print_act<R: Print>(
    rt: &R,
    alloc: Global,
    files: &mut MemoryStore,
    words: &[&str],
) -> io::Result<()> {
    let name = word(words, 1);
    match word(words, 0) {
        "save" => print_save(rt, files, name, word(words, 2)),
        "load" => print_load(rt, alloc, files, name, wide(words, 2) as usize),
        "held" => print_held(rt, files, name),
        verb => println!(rt; "no call of a store: {verb}"),
    }
}

// Does what three words of a line say with a store.
fn act<R: Print>(
    rt: &R,
    alloc: Global,
    files: &mut MemoryStore,
    words: &[&str],
) -> anyhow::Result<()> {
    match word(words, 0) {
        "put" => Ok(files.put(word(words, 1), word(words, 2).as_bytes())?),
        _ => Ok(print_act(rt, alloc, files, words)?),
    }
}

// Does what words say with a store, three words at a time.
fn act_all<R: Print>(
    rt: &R,
    alloc: Global,
    files: &mut MemoryStore,
    words: &[&str],
) -> anyhow::Result<()> {
    for call in words.chunks(3) {
        act(rt, alloc, files, call)?;
    }
    Ok(())
}

// Does what a line says with a new store.
fn print_store<R: Print>(rt: &R, alloc: Global, words: &[&str]) -> anyhow::Result<()> {
    let failing = failing(alloc, word(words, 1))?;
    let mut files = MemoryStore::new(alloc, failing);
    act_all(rt, alloc, &mut files, words.get(2..).unwrap_or(&[]))
}

// A sink that takes at most so many bytes a write, or with 0 as many as it is given.
fn sink_of(alloc: Global, most: usize, failing: Vec<u64>) -> MemorySink {
    if most == 0 {
        MemorySink::new(alloc, failing)
    } else {
        MemorySink::in_pieces(alloc, most, failing)
    }
}

// Prints what comes of a text that is sent.
fn print_sent<R: Print, K: Sink>(rt: &R, sink: &mut K, text: &str) -> io::Result<()> {
    println!(rt; "send {text} {:?}", send_all(sink, text.as_bytes()))
}

// Sends texts, and prints what was written.
fn send_texts<R: Print>(rt: &R, sink: &mut MemorySink, texts: &[&str]) -> io::Result<()> {
    for text in texts {
        print_sent(rt, sink, text)?;
    }
    print_text(rt, "written", sink.written())
}

// Sends the texts of a line to a new sink, and prints what was written.
fn print_sink<R: Print>(rt: &R, alloc: Global, words: &[&str]) -> anyhow::Result<()> {
    let failing = failing(alloc, word(words, 2))?;
    let mut sink = sink_of(alloc, wide(words, 1) as usize, failing);
    Ok(send_texts(rt, &mut sink, words.get(3..).unwrap_or(&[]))?)
}

// A source of a text that gives at most so many bytes a read, or with 0 as many as there is room for.
fn source_of(
    alloc: Global,
    most: usize,
    failing: Vec<u64>,
    text: &str,
) -> Result<MemorySource, AllocError> {
    let bytes = Vec::from_slice(alloc, text.as_bytes())?;
    if most == 0 {
        Ok(MemorySource::new(bytes, failing))
    } else {
        Ok(MemorySource::in_pieces(bytes, most, failing))
    }
}

// Prints what a read of one byte gives.
fn print_byte<R: Print, I: Source<NoSink>>(rt: &R, source: &mut I) -> io::Result<()> {
    println!(rt; "read {:?}", source.read(&NoSink, &mut [0u8]))
}

// A source of a text, of whose reads those of these numbers fail.
fn failing_source(
    alloc: Global,
    most: usize,
    calls: &str,
    text: &str,
) -> Result<MemorySource, AllocError> {
    source_of(alloc, most, failing(alloc, calls)?, text)
}

// Reads so many single bytes of a source, and prints what is left.
fn read_bytes<R: Print>(rt: &R, source: &mut MemorySource, count: u64) -> io::Result<()> {
    for _ in 0..count {
        print_byte(rt, source)?;
    }
    print_text(rt, "left", source.left())
}

// Reads so many single bytes of a line's source, and prints what is left.
fn print_reads<R: Print>(rt: &R, alloc: Global, words: &[&str]) -> anyhow::Result<()> {
    let mut source = failing_source(alloc, 0, word(words, 1), word(words, 2))?;
    Ok(read_bytes(rt, &mut source, wide(words, 3))?)
}

// Reads a source to its end or the limit, and prints what it gives.
fn read_all<R: Print>(
    rt: &R,
    alloc: Global,
    source: &mut MemorySource,
    expected: usize,
    limit: usize,
) -> io::Result<()> {
    match read_to_end(alloc, source, expected, limit) {
        Ok(bytes) => print_text(rt, "all", &bytes),
        Err(error) => println!(rt; "all {error:?}"),
    }
}

// Reads a line's source to its end or the limit.
fn print_source<R: Print>(rt: &R, alloc: Global, words: &[&str]) -> anyhow::Result<()> {
    let most = wide(words, 1) as usize;
    let (expected, limit) = (wide(words, 4) as usize, wide(words, 5) as usize);
    let mut source = failing_source(alloc, most, word(words, 2), word(words, 3))?;
    Ok(read_all(rt, alloc, &mut source, expected, limit)?)
}

/// Prints what a line wants to know of stores and streams.
pub fn tell<R: Print>(rt: &R, alloc: Global, verb: &str, words: &[&str]) -> anyhow::Result<()> {
    match verb {
        "store" => print_store(rt, alloc, words),
        "sink" => print_sink(rt, alloc, words),
        "reads" => print_reads(rt, alloc, words),
        "source" => print_source(rt, alloc, words),
        _ => Err(anyhow::anyhow!("no line of cases: {verb}")),
    }
}
