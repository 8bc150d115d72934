//! Runs the cases on standard input, and prints what comes of each. A number that is left out, or a word that
//! is none, is 0.
//!
//! Some cases call the program on files in memory. First a line is printed: the status, and how many bytes the
//! program wrote to out and to err. Behind it stands what it wrote to out, then what it wrote to err. A text
//! that isn't UTF-8 is printed as its bytes, in hexadecimal. Before `status` may stand whether the call's
//! harts `met` or `kept` the order of their turns, and after `err` how much of its input it `left`.
//!
//! Others are runs below the program, of the plain machine, of the bus and whole ones. What is printed is what
//! they hand over, with a hart's End as its count, reason and value.
//!
//! | line | what it does |
//! |---|---|
//! | `# TEXT` | begins a case, with no file, code or input and by default settings, and prints the line |
//! | `program NAME WORD ..` | a program file of these code words, in hexadecimal |
//! | `guest NAME NUMBER` | the program file that a number generates and that crashes |
//! | `bytes NAME HEX` | these bytes after those that the file has |
//! | `put NAME PLACE HEX` | these bytes in place of those from a place on |
//! | `cut NAME LENGTH` | the first bytes of the file alone |
//! | `zeros NAME LENGTH` | a file of so many bytes 0 |
//! | `failing-store CALL ..` | a store of no file, whose calls of these numbers fail |
//! | `failing-out CALL ..`, `failing-err CALL ..` | the next call's out or err fails at its writes of these numbers |
//! | `type TEXT` | the next call can read this line, after what it could before |
//! | `keys HEX`, `keys HEX COUNT` | the same of these bytes, or of a byte so many times |
//! | `failing-keys CALL ..` | the next call's reads of these numbers fail |
//! | `run WORD ..` | the program with these words |
//! | `run-meet HARTS WORD ..` | the same, but the harts meet before their first turns |
//! | `run-meet-status HARTS WORD ..` | the same, but only the status and whether they met are printed: the rest may depend on the order of their turns |
//! | `run-listed HEX WORD ..` | the same, but the harts take their turns in this order, a byte for each |
//! | `run-last COUNT WORD ..` | the program with these words, of whose out so many of the last lines alone are printed |
//! | `run-prefixes NAME FIRST LAST WORD ..` | the program with these words on each prefix of the file from FIRST to LAST bytes. A line for each has its length, the status, how many bytes out and err have, and err's text. Then the file is whole again. FIRST is at most LAST, and LAST at most the file's length |
//! | `size NAME`, `show NAME` | how long a file is, and its bytes |
//! | `alike NAME NAME` | whether two files have the same bytes |
//! | `code WORD ..` | at most 64 code words at 0x10054, in hexadecimal, which runs have in place of a file |
//! | `input HEX` | the bytes that their calls read |
//! | `set NAME N` | one of their settings: `harts`, `interval` or `line` |
//! | `plain HART ..` | turns on a plain machine |
//! | `serve STEP ..`, `serve-lean STEP ..` | steps on a bus whose book tells its rows, or tells nothing |
//! | `turns HART ..`, `turns-lean HART ..` | the whole run of a list of turns, with such a book |
//! | `seed N`, `seed-listed N` | the whole run of a number's turns; the same with their list, and a book that tells nothing |
//! | `records FIRST END` | the bytes of the last run's records from a place up to another |
//! | `same` | whether the last two runs have the same records |
//!
//! A step is a hart's number, for a turn; `ahead-HART`, for its quiet instructions without a turn;
//! `stray-HART`, for an ask to store into its code, which no hart can make; or `halt`. After each come the
//! harts that are live.
#![tactic(auto)]

mod closed_runs;
mod files;
mod machine;
mod prefixes;
mod runs;
mod script;
mod serving;
mod telling;
mod words;

use script::Case;
use std::alloc::Global;
use std::io::Input;
use std::sync::Wait;
use std::thread::Threads;

// Does what each line of standard input says.
fn run<R: Input + Print + Threads + Wait + Sync>(
    rt: &R,
    alloc: Global,
    case: &mut Case,
) -> anyhow::Result<()> {
    for line in rt.lines(alloc) {
        case.take(rt, line)?;
    }
    Ok(())
}

fn main(rt: HostRuntime) -> anyhow::Result<()> {
    let mut case = Case::new(rt.alloc());
    run(&rt, rt.alloc(), &mut case)
}
