//! Records runs and replays their logs, over the files of the system and the standard streams.
//!
//! All that the program does is `bugnet::run_by_schedule`. Here it gets its words, the real store, source and sinks,
//! and the turns that the environment names for a recording without a seed. No text waits in a buffer. So a
//! write that fails does so in the command that made it, the two outputs keep their order, and what a
//! command prints is seen before the next one is read.
#![tactic(auto)]

mod schedule;

use crate::schedule::{tell_out_of_memory, turns_of};
use bn_outside::OpenGate;
use host_outside::{FileStore, ReaderSource, Writing, words_of};
use std::process::ExitCode;

fn main(rt: HostRuntime) -> ExitCode {
    let mut err = Writing::new(rt.stderr());
    let Ok(words) = words_of(&rt) else {
        return ExitCode::from(tell_out_of_memory(&mut err).code());
    };
    let mut files = FileStore::new(&rt);
    let turns = match turns_of(&rt, rt.alloc(), &words, &mut files, &mut err) {
        Ok(turns) => turns,
        Err(status) => return ExitCode::from(status.code()),
    };
    let mut input = ReaderSource::new(rt.stdin());
    let mut out = Writing::new(rt.stdout());
    let status = bugnet::run_by_schedule(
        &rt,
        rt.alloc(),
        &words,
        &mut files,
        &mut input,
        &mut out,
        &mut err,
        &OpenGate,
        turns.schedule(),
    );
    ExitCode::from(status)
}
