//! The loop of the script: the program on each prefix of a file.
use crate::machine::Surroundings;
use crate::words::{number, rest, word};
use bn_outside::OpenGate;
use std::alloc::Global;
use std::sync::Wait;
use std::thread::Threads;

// Prints how long a prefix is, the status, how many bytes the program wrote to out and to err, and the
// text of err.
fn print_prefix<R: Print>(
    rt: &R,
    length: usize,
    status: u8,
    machine: &Surroundings,
) -> anyhow::Result<()> {
    let (out, err) = (machine.out.written(), machine.err.written());
    print!(rt;
        "{length} status {status}, out {}, err {}",
        out.len(),
        err.len()
    )?;
    Ok(println!(rt; " {}", std::str::from_utf8(err)?.trim_end())?)
}

// Runs the program on a prefix of a file, and prints a line of what comes of it.
fn run_prefix<R: Print + Threads + Wait + Sync>(
    rt: &R,
    machine: &mut Surroundings,
    name: &str,
    prefix: &[u8],
    words: &[&str],
) -> anyhow::Result<()> {
    machine.files.put(name, prefix)?;
    let status = machine.run(rt, words, &OpenGate)?;
    print_prefix(rt, prefix.len(), status, machine)
}

// Runs the program on each prefix of these bytes, from the first length to the last.
fn run_each<R: Print + Threads + Wait + Sync>(
    rt: &R,
    machine: &mut Surroundings,
    name: &str,
    bytes: &[u8],
    first: usize,
    last: usize,
    words: &[&str],
) -> anyhow::Result<()> {
    anyhow::ensure!(first <= last, "run-prefixes: FIRST is above LAST");
    anyhow::ensure!(
        last <= bytes.len(),
        "run-prefixes: LAST is above the file's length"
    );
    for length in first..=last {
        run_prefix(rt, machine, name, &bytes[..length], words)?;
    }
    Ok(())
}

// Runs the program on prefixes of a file of these bytes as a line says, and leaves the file whole.
fn run_on<R: Print + Threads + Wait + Sync>(
    rt: &R,
    machine: &mut Surroundings,
    words: &[&str],
    bytes: &[u8],
) -> anyhow::Result<()> {
    let (name, first, last) = (word(words, 1), number(words, 2), number(words, 3));
    run_each(rt, machine, name, bytes, first, last, rest(words, 4))?;
    Ok(machine.files.put(name, bytes)?)
}

/// Runs the program on prefixes of a file as a line says, and leaves the file whole.
pub fn run_prefixes<R: Print + Threads + Wait + Sync>(
    rt: &R,
    alloc: Global,
    machine: &mut Surroundings,
    words: &[&str],
) -> anyhow::Result<()> {
    let bytes = machine.bytes(word(words, 1)).to_vec(alloc)?;
    run_on(rt, machine, words, &bytes)
}
