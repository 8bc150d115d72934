// The lines of a script of cases.
use crate::files;
use crate::machine::Surroundings;
use crate::prefixes::run_prefixes;
use crate::runs::Runs;
use crate::telling::print_bytes;
use crate::words::{code, number, numbers, rest, word, words_of};
use bn_outside::{ListGate, MeetGate, OpenGate};
use guest_gen::{Kind, guest};
use std::alloc::{AllocError, Global};
use std::io;
use std::sync::Wait;
use std::thread::Threads;

// The program file of a line's code words.
fn program_of(alloc: Global, rest: &[&str]) -> Result<Vec<u8>, AllocError> {
    let words = code(alloc, rest)?;
    files::program(alloc, &words)
}

// Puts bytes in place of a file's own from a place on.
fn patch(file: &mut Vec<u8>, place: usize, bytes: &[u8]) {
    for (byte, new) in file.iter_mut().skip(place).zip(bytes) {
        *byte = *new;
    }
}

// Adds the bytes of a text to a file, or puts them in place of its own from the place that a line says on.
fn add_bytes(alloc: Global, file: &mut Vec<u8>, verb: &str, rest: &[&str]) -> anyhow::Result<()> {
    let bytes = hex::decode(alloc, rest.last().copied().unwrap_or(""))?;
    match verb {
        "put" => patch(file, number(rest, 0), &bytes),
        _ => file.extend_from_slice(&bytes)?,
    }
    Ok(())
}

// Changes a file as a line says.
fn change(alloc: Global, file: &mut Vec<u8>, verb: &str, rest: &[&str]) -> anyhow::Result<()> {
    match verb {
        "cut" => {
            file.truncate(number(rest, 0));
            Ok(())
        }
        "zeros" => {
            file.clear();
            Ok(file.resize(number(rest, 0), 0)?)
        }
        _ => add_bytes(alloc, file, verb, rest),
    }
}

// A file with the change that a line says.
fn with_change(alloc: Global, old: &[u8], verb: &str, rest: &[&str]) -> anyhow::Result<Vec<u8>> {
    let mut file = old.to_vec(alloc)?;
    change(alloc, &mut file, verb, rest)?;
    Ok(file)
}

// The new bytes of a file.
fn changed(alloc: Global, old: &[u8], verb: &str, rest: &[&str]) -> anyhow::Result<Vec<u8>> {
    match verb {
        "program" => Ok(program_of(alloc, rest)?),
        "guest" => Ok(guest(alloc, number(rest, 0) as u64, Kind::Crash)?),
        _ => with_change(alloc, old, verb, rest),
    }
}

// Prints a text, or the bytes that are none.
fn print_text<R: Print>(rt: &R, text: &[u8]) -> io::Result<()> {
    match std::str::from_utf8(text) {
        Ok(text) => print!(rt; "{text}"),
        Err(_) => print_bytes(rt, text),
    }
}

// Prints what is left of the input, if there was any, and ends the line.
fn print_left<R: Print>(rt: &R, left: Option<usize>) -> io::Result<()> {
    match left {
        Some(left) => println!(rt; ", left {left}"),
        None => println!(rt; ""),
    }
}

// Prints a line of the status and of how many bytes the program wrote to out and to err, and then both texts.
fn print_outcome<R: Print>(rt: &R, machine: &Surroundings, status: u8) -> io::Result<()> {
    let (out, err) = (machine.out.written(), machine.err.written());
    print!(rt; "status {status}, out {}, err {}", out.len(), err.len())?;
    print_left(rt, machine.left)?;
    print_text(rt, out)?;
    print_text(rt, err)
}

// Runs the program, and prints what came of it.
fn run<R: Print + Threads + Wait + Sync>(
    rt: &R,
    machine: &mut Surroundings,
    words: &[&str],
) -> anyhow::Result<()> {
    let status = machine.run(rt, words, &OpenGate)?;
    Ok(print_outcome(rt, machine, status)?)
}

// Runs the program with a gate at which harts meet, and prints whether they met and what came of it: the
// status alone, if the rest may depend on the order of their turns.
fn run_meet<R: Print + Threads + Wait + Sync>(
    rt: &R,
    machine: &mut Surroundings,
    words: &[&str],
    gate: &MeetGate,
) -> anyhow::Result<()> {
    let status = machine.run(rt, rest(words, 2), gate)?;
    print!(rt; "met {}, ", gate.met())?;
    match word(words, 0) {
        "run-meet" => Ok(print_outcome(rt, machine, status)?),
        _ => Ok(println!(rt; "status {status}")?),
    }
}

// Runs the program with a gate that gives the order of the harts' turns, and prints whether they kept it
// and what came of it.
fn run_listed<R: Print + Threads + Wait + Sync>(
    rt: &R,
    machine: &mut Surroundings,
    words: &[&str],
    gate: &ListGate,
) -> anyhow::Result<()> {
    let status = machine.run(rt, words, gate)?;
    print!(rt; "kept {}, ", gate.kept())?;
    Ok(print_outcome(rt, machine, status)?)
}

// The gate that gives the order of a text.
fn list_gate(alloc: Global, text: &str) -> anyhow::Result<ListGate> {
    let order = hex::decode(alloc, text)?;
    Ok(ListGate::new(alloc, &order)?)
}

// Runs the program with a gate that gives the order of the harts' turns that a line says.
fn run_in_order<R: Print + Threads + Wait + Sync>(
    rt: &R,
    alloc: Global,
    machine: &mut Surroundings,
    words: &[&str],
) -> anyhow::Result<()> {
    let gate = list_gate(alloc, word(words, 1))?;
    run_listed(rt, machine, rest(words, 2), &gate)
}

// Prints a line of the script, and runs the program as it says.
fn call<R: Print + Threads + Wait + Sync>(
    rt: &R,
    alloc: Global,
    machine: &mut Surroundings,
    line: &str,
    words: &[&str],
) -> anyhow::Result<()> {
    println!(rt; "{line}")?;
    match word(words, 0) {
        "run" => run(rt, machine, rest(words, 1)),
        "run-listed" => run_in_order(rt, alloc, machine, words),
        "run-prefixes" => run_prefixes(rt, alloc, machine, words),
        "run-last" => run_last(rt, machine, words),
        _ => run_meet(
            rt,
            machine,
            words,
            &MeetGate::new((number(words, 1) % 256) as u8),
        ),
    }
}

// One byte of input so many times.
fn repeated(alloc: Global, byte: u8, count: usize) -> Result<Vec<u8>, AllocError> {
    let mut bytes = Vec::new(alloc);
    bytes.resize(count, byte)?;
    Ok(bytes)
}

// The bytes of a line; if it says how often, the first of them so many times.
fn keys_of(alloc: Global, words: &[&str]) -> anyhow::Result<Vec<u8>> {
    let keys = hex::decode(alloc, word(words, 1))?;
    if words.len() <= 2 {
        return Ok(keys);
    }
    let byte = keys.first().copied().unwrap_or(0);
    Ok(repeated(alloc, byte, number(words, 2))?)
}

// The line of text that a line of the script says.
fn text_of(alloc: Global, line: &str) -> anyhow::Result<Vec<u8>> {
    let mut keys = Vec::from_slice(alloc, line.strip_prefix("type ").unwrap_or("").as_bytes())?;
    keys.push(b'\n')?;
    Ok(keys)
}

// What a line adds to what the next call reads: a line of text, bytes, or a byte so many times.
fn typed(alloc: Global, line: &str, words: &[&str]) -> anyhow::Result<Vec<u8>> {
    match word(words, 0) {
        "keys" => keys_of(alloc, words),
        _ => text_of(alloc, line),
    }
}

// Prints so many last lines of what the program wrote to out.
fn print_last<R: Print>(rt: &R, machine: &Surroundings, count: usize) -> anyhow::Result<()> {
    let text = std::str::from_utf8(machine.out.written())?;
    let lines = text.lines().count();
    for last in text.lines().skip(lines.saturating_sub(count)) {
        println!(rt; "{last}")?;
    }
    Ok(())
}

// Runs the program, and prints its status, and of what it wrote to out the last lines alone.
fn run_last<R: Print + Threads + Wait + Sync>(
    rt: &R,
    machine: &mut Surroundings,
    words: &[&str],
) -> anyhow::Result<()> {
    let status = machine.run(rt, rest(words, 2), &OpenGate)?;
    println!(rt; "status {status}")?;
    print_last(rt, machine, number(words, 1))
}

// Prints whether two files have the same bytes.
fn compare<R: Print>(rt: &R, machine: &Surroundings, name: &str, other: &str) -> io::Result<()> {
    let same = machine.bytes(name) == machine.bytes(other);
    println!(rt; "{name} is {other}: {same}")
}

// Prints how long a file is.
fn print_size<R: Print>(rt: &R, machine: &Surroundings, name: &str) -> io::Result<()> {
    match machine.files.bytes(name) {
        Some(bytes) => println!(rt; "{name} {}", bytes.len()),
        None => println!(rt; "{name} is not there"),
    }
}

// Prints how long a file is, and its bytes.
fn show<R: Print>(rt: &R, machine: &Surroundings, name: &str) -> io::Result<()> {
    print_size(rt, machine, name)?;
    print_bytes(rt, machine.bytes(name))
}

// Prints what a line wants to see of files.
fn look<R: Print>(rt: &R, machine: &Surroundings, words: &[&str]) -> io::Result<()> {
    let name = word(words, 1);
    match word(words, 0) {
        "size" => print_size(rt, machine, name),
        "show" => show(rt, machine, name),
        _ => compare(rt, machine, name, word(words, 2)),
    }
}

/// What a case has made so far.
#[derive(Drop)]
pub struct Case {
    alloc: Global,
    machine: Surroundings,
    runs: Runs,
}

impl Case {
    /// A case with no file and no run.
    pub fn new(alloc: Global) -> Case {
        Case {
            alloc,
            machine: Surroundings::new(alloc, Vec::new(alloc)),
            runs: Runs::new(alloc),
        }
    }

    // Does what a line says of calls that fail.
    fn fail(&mut self, verb: &str, calls: &[&str]) -> anyhow::Result<()> {
        let numbers = numbers(self.alloc, calls)?;
        match verb {
            "failing-store" => self.machine = Surroundings::new(self.alloc, numbers),
            "failing-out" => self.machine.failing = numbers,
            "failing-err" => self.machine.failing_err = numbers,
            _ => self.machine.failing_keys = numbers,
        }
        Ok(())
    }

    // Adds what a line types to what the next call can read.
    fn type_keys(&mut self, line: &str, words: &[&str]) -> anyhow::Result<()> {
        let keys = typed(self.alloc, line, words)?;
        self.machine.keys.extend_from_slice(&keys)?;
        Ok(())
    }

    // Makes or changes a file as a line says.
    fn put_file(&mut self, verb: &str, name: &str, rest: &[&str]) -> anyhow::Result<()> {
        let file = changed(self.alloc, self.machine.bytes(name), verb, rest)?;
        Ok(self.machine.files.put(name, &file)?)
    }

    // Begins a case, and prints its line.
    fn begin<R: Print>(&mut self, rt: &R, line: &str) -> anyhow::Result<()> {
        *self = Case::new(self.alloc);
        println!(rt; "{line}")?;
        Ok(())
    }

    // Does what a line says, by what it is about.
    fn act<R: Print + Threads + Wait + Sync>(
        &mut self,
        rt: &R,
        line: &str,
        verb: &str,
        words: &[&str],
    ) -> anyhow::Result<()> {
        match verb {
            "failing-store" | "failing-out" | "failing-err" | "failing-keys" => {
                self.fail(verb, rest(words, 1))
            }
            "type" | "keys" => self.type_keys(line, words),
            "run" | "run-meet" | "run-meet-status" | "run-listed" | "run-prefixes" | "run-last" =>
                call(rt, self.alloc, &mut self.machine, line, words),
            "size" | "show" | "alike" => Ok(look(rt, &self.machine, words)?),
            "program" | "guest" | "bytes" | "put" | "cut" | "zeros" => {
                self.put_file(verb, word(words, 1), rest(words, 2))
            }
            _ => self.runs.step(rt, verb, rest(words, 1)),
        }
    }

    // Does what the words of a line say.
    fn obey<R: Print + Threads + Wait + Sync>(
        &mut self,
        rt: &R,
        line: &str,
        words: &[&str],
    ) -> anyhow::Result<()> {
        match word(words, 0) {
            "" => Ok(()),
            "#" => self.begin(rt, line),
            verb => self.act(rt, line, verb, words),
        }
    }

    // Does what a line of the script says.
    fn step<R: Print + Threads + Wait + Sync>(&mut self, rt: &R, line: &str) -> anyhow::Result<()> {
        let words = words_of(self.alloc, line)?;
        self.obey(rt, line, &words)
    }

    /// Does what a line that was read says.
    pub fn take<R: Print + Threads + Wait + Sync>(
        &mut self,
        rt: &R,
        line: io::Result<String>,
    ) -> anyhow::Result<()> {
        let line = line?;
        self.step(rt, &line)
    }
}
