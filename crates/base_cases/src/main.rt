//! Does the cases of standard input, and prints what comes of each: cases of command lines, settings,
//! programs, marks, system calls, memory, caches, numbers, stores and streams. Each line calls public functions of the
//! lowest layers, so that a case costs no proof.
//!
//! Numbers are hexadecimal, but those of settings and of marks, which are decimal. One that is left out
//! is 0. A setting is the number that it is named by in errors, and its value; the others have their
//! defaults.
//!
//! | line | what it does |
//! |---|---|
//! | `# TEXT` | begins a case, with no events and steps, and prints the line |
//! | `note TEXT` | nothing: it tells the reader what the lines after it are |
//! | `words WORD\|..` | what these words of a command line ask for, or that they are refused; `words` alone has none |
//! | `settings SETTING VALUE ..` | whether they are in range, or which isn't |
//! | `mark REASON` | the word of a mark |
//! | `fault-mark COUNT FAULT VALUE` | the mark of a fault, and its word |
//! | `list BYTE ..` | the items of the list of these bytes, and how many it gives back |
//! | `file HEX`, `more HEX` | the bytes of a program file, and those after them |
//! | `load SETTING VALUE ..` | the program of the file, with these settings |
//! | `bounds` | its first address, the bounds of its heap, the memory's size, the harts and the segments |
//! | `mapped ADDRESS` | whether an address is mapped |
//! | `at ADDRESS` | the word there, whether it is code, and whether it may be stored to |
//! | `call NUMBER A0 A1 A2 BREAK INPUT OUT ERR` | what a system call does, with so many bytes of the input left and in the streams |
//! | `room ADDRESS COUNT`, `put ADDRESS WORD` | one more step of memory |
//! | `word ADDRESS`, `page ADDRESS` | the word there after these steps, and whether its page is made |
//! | `touch ADDRESS`, `drop ADDRESS`, `clear` | one more event of caches |
//! | `cache SETS WAYS LINE` | what each access among the first 1,000 of these events finds |
//! | `read PLACE HEX` | the numbers of 2, 4 and 8 bytes there |
//! | `write4 PLACE NUMBER HEX`, `write8 ..` | the bytes with a number there |
//! | `push NUMBER NUMBER` | the bytes of a number of 32 bits and one of 64 |
//! | `store FAILING CALL NAME WORD ..` | what comes of calls of a new store, of which those of these numbers fail: `save` of a text, `load` with a limit, `put` of a text without a call, and `held`, what stands there |
//! | `sink MOST FAILING TEXT ..` | what comes of texts that are sent to a new sink, at most so many bytes a write, and what was written |
//! | `reads FAILING TEXT COUNT` | so many reads of one byte of a text, and what is left |
//! | `source MOST FAILING TEXT EXPECTED LIMIT` | what a text is read as, to its end or the limit, at most so many bytes a read |
#![tactic(auto)]

mod caches;
mod command_lines;
mod memory;
mod numbers;
mod programs;
mod script;
mod settings;
mod streams;
mod words;

use script::Case;

// Does what each line of standard input says.
fn run(rt: &HostRuntime, case: &mut Case) -> anyhow::Result<()> {
    for line in rt.lines(rt.alloc()) {
        case.take(rt, line)?;
    }
    Ok(())
}

fn main(rt: HostRuntime) -> anyhow::Result<()> {
    let mut case = Case::new(rt.alloc());
    run(&rt, &mut case)
}
