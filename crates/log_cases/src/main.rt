//! Makes logs of bytes as standard input says, and prints what reading, salvaging and replaying say of
//! them. Nothing is said of a log but by its bytes, so damaged and forged ones are made like good ones.
//! A number that is left out, or a word that is none, is 0.
//!
//! | line | what it does |
//! |---|---|
//! | `# TEXT` | begins a case, with the files that stand before the first case and no code, and prints the line |
//! | `note TEXT` | nothing: it tells the reader what the lines after it make |
//! | `bytes NAME HEX` | these bytes after those that the file has |
//! | `header NAME HART INTERVAL COUNT PC X1 ..` | a Header after them, whose other registers are 0 |
//! | `first-load NAME HART SKIP VALUE` | a FirstLoad |
//! | `sc-ok NAME HART`, `sc-failed NAME HART` | what came of a store-conditional |
//! | `edge NAME HART COUNT FROM COUNT` | an Edge |
//! | `end NAME HART COUNT REASON VALUE` | an End |
//! | `part NAME OTHER FROM END` | the bytes of another file from a place up to another |
//! | `join NAME OTHER ..` | all bytes of other files |
//! | `digest NAME OTHER` | the digest of the bytes of another file |
//! | `block NAME HEAD RECORDS FROM END BEFORE LEFT` | a sealed block after that head: the bytes of records from a place up to another, the number of records before it, and of bytes left after it |
//! | `take NAME OTHER` | a copy of another file |
//! | `set NAME PLACE WIDTH NUMBER` | a number in place of so many bytes from a place on |
//! | `put NAME PLACE HEX` | these bytes in place of those from a place on |
//! | `flip NAME PLACE` | a byte with the other lowest bit |
//! | `cut NAME LENGTH` | the first bytes alone |
//! | `write1 NAME LOG DROPPED RECORDS`, `write2 ..` | the file of version 1 or 2 with a log's head, these records, and so many dropped |
//! | `convert NAME OTHER`, `rescue NAME OTHER` | the file of version 2 of what is read, or salvaged, of another |
//! | `read NAME`, `salvage NAME`, `count NAME` | how many records a log has, or why it is refused; counted as version 1 |
//! | `tell NAME` | `read` and `salvage` |
//! | `show NAME` | the file's bytes |
//! | `code WORD ..` | the program: at most 64 code words at 0x10054, in hexadecimal |
//! | `replay NAME HART INTERVAL` | the rows of an interval, and what comes of it, then and at a further step |
//! | `slice NAME HART INTERVAL COUNT` | the slice of a row of an interval, or why there is none |
//! | `races NAME MAX` | the races of a log, at most so many, or why there is no report |
#![tactic(auto)]

mod building;
mod files;
mod logs;
mod replays;
mod reports;
mod script;
mod words;

use script::Case;

// Does what each line of standard input says.
fn run(rt: &HostRuntime, case: &mut Case) -> anyhow::Result<()> {
    for line in rt.lines(rt.alloc()) {
        case.take(rt, line)?;
    }
    Ok(())
}

fn main(rt: HostRuntime) -> anyhow::Result<()> {
    let mut case = Case::new(rt.alloc());
    run(&rt, &mut case)
}
