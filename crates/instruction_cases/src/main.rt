//! Does the cases of standard input, and prints what comes of each: cases of the instruction table, of
//! texts, of what instructions do and ask, of rows, and of program files. Each line calls public
//! functions of the layers below, so that a case costs no proof.
//!
//! Numbers are hexadecimal. One that is left out is 0, unless the table says something else.
//!
//! | line | what it does |
//! |---|---|
//! | `# TEXT` | begins a case, with an empty text, and prints the line |
//! | `note TEXT` | nothing: it tells the reader what the lines after it are |
//! | `decode WORD` | the instruction of a word, its format, and the word that it is encoded to |
//! | `text PC WORD` | the text of an instruction |
//! | `row HART COUNT PC WORD PART ..` | the line of a row; a word `-` is none. A part is `reg NUMBER VALUE`, `load ADDRESS WORD`, `store ADDRESS WORD` or `fault NUMBER VALUE` |
//! | `push-bytes TEXT`, `push-name REGISTER`, `push-decimal N`, `push-signed N`, `push-hex8 N`, `push-hex N`, `truncate LENGTH` | the length of the case's text, which is changed so, and the text |
//! | `code WORD ..` | the program: at most 64 code words at 0x10000, which stores may not change |
//! | `second WORD ..` | a second segment of it, at 0x11000 |
//! | `run BUDGET A1 A2 A7 PC COUNT` | what a hart asks then, and its state: the pc, the count and the registers that aren't 0; the pc is 10000, and the count 5, if they are left out |
//! | `ahead LIMIT BUDGET A1 A2 A7 PC COUNT` | the same by code that is decoded ahead, at most so many words of it; a limit `-` is the greatest |
//! | `word WORD`, `answer VALUE`, `sc-ok`, `sc-failed`, `over` | the state after that reply to the last ask |
//! | `leaves WORD` | what the last ask makes of that word in memory |
//! | `orderly FROM BUDGET WANT` | whether an ask at the count 5 is orderly; a want is `cut`, `breakpoint VALUE` or `store ADDRESS WIDTH` |
//! | `done PC PART ..`, `called PC PART ..`, `faulted PC PART ..` | the line of the row of hart 3, after 7 instructions, with ten times its number in each register |
//! | `file HEX`, `more HEX` | the bytes of a program file, and those after them |
//! | `guest NUMBER KIND` | the program file that a number gives, with the end `loop` or `crash`, and its length |
//! | `load PLACE WORD ..` | the file with these words at these places, loaded as the program, or why it is refused |
//! | `load-first LENGTH` | the same of its first bytes |
//! | `begins` | the first addresses of the program and of its heap |
//! | `at ADDRESS` | what stands there: the word, whether it is code, and whether it may be stored to |
#![tactic(auto)]

mod files;
mod harts;
mod programs;
mod replies;
mod rows;
mod script;
mod texts;
mod words;

use script::Case;

// Does what each line of standard input says.
fn run(rt: &HostRuntime, case: &mut Case) -> anyhow::Result<()> {
    for line in rt.lines(rt.alloc()) {
        case.take(rt, line)?;
    }
    Ok(())
}

fn main(rt: HostRuntime) -> anyhow::Result<()> {
    let mut case = Case::new(rt.alloc());
    run(&rt, &mut case)
}
