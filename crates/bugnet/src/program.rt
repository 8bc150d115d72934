//! The program: it reads its words, loads, answers, saves and prints.
//! `Runs` says all that is proved of the whole; code below `run` may change as long as that stands.
ghost use Rattle.std.specs.Prelude.{◌≡◌, Option, Some, None, IfOk};
ghost use Rattle.bugnet.specs.Common.{Schedule, command_in, seen, code, call};
ghost use Rattle.bugnet.specs.ClosedRuns.{IsRecordingBy};
ghost use Rattle.bugnet.specs.Answers.{names_in, words_refusal};
ghost use Rattle.bugnet.specs.Replies.{Does, DoesTo};
ghost use Rattle.bugnet.specs.Laws.{NeedsNoThreads, TakesAlike};
ghost use Rattle.bugnet.specs.Sessions.{reading};
ghost use Rattle.bugnet.specs.Program.{Runs};

use crate::command_files::names_of;
use crate::commands::debug::debug_files;
use crate::laws::{
    audits_agree, converted_files_keep_to_the_limit, each_can_be_done, headline, joint_headline,
    one_answer, sessions_show_the_run,
};
use crate::recorder;
use crate::recordings::{keep_recording, keep_scheduled, keep_threaded, threaded};
use crate::replies::reply;
use bn_outside::{Gate, Schedule, Sink, Source, Store};
use command_words::{Command, WordsError, read_words};
use file_laws::logs_are_contents;
use log_blocks::laws::saved_files_keep_to_the_limit;
use log_blocks::readings::{files_are_read, readings_are_unique};
use log_commands::answer::RunToTell;
use log_commands::names::Names;
use log_commands::refusal::Refusal;
use log_commands::send::{done, give_status, refuse};
use log_commands::status::Status;
use run_model::Start;
use std::alloc::{AllocError, Global};
use std::sync::Wait;
use std::thread::Threads;
use step_debugger::laws::refusals_stay;

/// Does what a command asks for, other than a recording whose harts need threads. It may neither wait nor start threads, and
/// so it owes its return: each of these commands ends. Only a recording without a seed takes the schedule.
pub fn perform<S: Store, I: Source<O>, O: Sink, X: Sink>(
    alloc: Global,
    command: &Command,
    names: &Names,
    files: &mut S,
    input: &mut I,
    out: &mut O,
    err: &mut X,
    schedule: Option<Schedule>,
) -> Result<Status, Refusal>
    requires named { names.now ≡ names_in (seen command.now) }
    requires no_threads { NeedsNoThreads schedule (Some (seen command.now)) }
    ensures { (given : Option Schedule) → TakesAlike (Some (seen command.now)) schedule.entry given → DoesTo given (seen command.now) names.now S.note (reading I.source I.note input.old input.new)
        (call S.stored O.stream X.stream files.old out.old err.old files.new out.new err.new) result }
{
    // Laws:
    readings_are_unique();
    sessions_show_the_run();
    logs_are_contents();
    saved_files_keep_to_the_limit();
    converted_files_keep_to_the_limit();
    files_are_read();
    refusals_stay();
    // What `debug` prints depends on what it reads meanwhile, so it has no answer that is made first.
    match command {
        Command::Debug { .. } => done(debug_files(alloc, names, files, input, out)),
        Command::Record(options) => match options.seed {
            None => keep_scheduled(alloc, options, names, files, out, err, &schedule),
            Some(seed) => {
                let lean = options.lean;
                keep_recording(
                    alloc,
                    options,
                    names,
                    files,
                    out,
                    err,
                    |start: &Start| -> Result<RunToTell, AllocError>
                        ensures { IfOk result (λ r. IsRecordingBy start.now (record { seed = Some seed; lean = lean; schedule = None }) r) }
                    { recorder::record_by_seed(alloc, start, seed, lean) },
                )
            }
        },
        _ => reply(alloc, command, names, files, out, err),
    }
}

// Does a recording whose harts need threads here, which alone may wait, and any other command by `perform`.
fn attempt<S: Store, I: Source<O>, O: Sink, X: Sink, G: Gate, R: Threads + Wait + Sync>(
    rt: &R,
    alloc: Global,
    command: &Command,
    names: &Names,
    files: &mut S,
    input: &mut I,
    out: &mut O,
    err: &mut X,
    gate: &G,
    schedule: Option<Schedule>,
) -> Result<Status, Refusal>
    requires { names.now ≡ names_in (seen command.now) }
    ensures { DoesTo schedule.entry (seen command.now) names.now S.note (reading I.source I.note input.old input.new)
        (call S.stored O.stream X.stream files.old out.old err.old files.new out.new err.new) result }
{
    match threaded(command, schedule) {
        Some(options) => keep_threaded(rt, alloc, options, names, files, out, err, gate),
        None => perform(alloc, command, names, files, input, out, err, schedule),
    }
}

// Why words give no command.
fn words_refusal(error: WordsError) -> Refusal
    ensures { result ≡ words_refusal error }
{
    match error {
        WordsError::Refused => Refusal::WordsRefused,
        WordsError::OutOfMemory => Refusal::OutOfMemory,
    }
}

// Reads the words, and does what they ask for. Each error ends here: its line is written to err, and gives the status.
fn obey<S: Store, I: Source<O>, O: Sink, X: Sink, G: Gate, R: Threads + Wait + Sync>(
    rt: &R,
    alloc: Global,
    words: &[String],
    files: &mut S,
    input: &mut I,
    out: &mut O,
    err: &mut X,
    gate: &G,
    schedule: Option<Schedule>,
) -> Status
    ensures { Does schedule.entry (command_in words.now) (code result) S.note (reading I.source I.note input.old input.new)
        (call S.stored O.stream X.stream files.old out.old err.old files.new out.new err.new) }
{
    match read_words(alloc, words) {
        Err(error) => refuse(alloc, &Names::none(), &words_refusal(error), err),
        Ok(command) => {
            let names = names_of(&command);
            let ending = attempt(
                rt, alloc, &command, &names, files, input, out, err, gate, schedule,
            );
            give_status(alloc, &names, ending, err)
        }
    }
}

/// The program. It reads its words, of which the first is its own name, loads what they name,
/// answers, saves and prints, and gives the status that the process ends with.
///
/// | words | what it does |
/// |---|---|
/// | `record [SETTINGS] [--seed N] [--lean] [--input FILE] ELF LOG BOOK` | runs the program, and saves its log and the list of its turns |
/// | `replay LOG ELF HART INTERVAL` | prints what the recorded run did in one interval, instruction by instruction |
/// | `joint LOG ELF` | prints what all harts did in the intervals that the log keeps, in an order that its Edges allow, and the words of memory that are known then |
/// | `debug LOG ELF` | steps through what `joint` prints, by commands that it reads from `input`, a line each |
/// | `list LOG` | prints a line for each interval that the log keeps, in the order of their Headers |
/// | `check LOG` | prints what the log has |
/// | `audit LOG ELF BOOK [--input FILE]` | runs the program again by the turns of BOOK, with the settings of the log, and says whether LOG is the file of that run |
/// | `convert LOG NEW` | saves what LOG says as a file of version 2, and prints what it has |
/// | `salvage LOG NEW` | saves the undamaged end of LOG, of version 2, and prints what it has |
/// | `races LOG ELF MAX` | lists the pairs of conflicting accesses that no synchronisation orders in what the log keeps, each with both instructions, if there are at most MAX |
/// | `slice LOG ELF HART INTERVAL IC` | prints the instructions of one interval that the one of this count stands on, and what these take from before |
/// | `demo SEED` | records a generated program, reads its log back, replays all that it keeps, and prints what was counted |
///
/// A recording takes these steps, in order:
/// - it tests the settings, and that LOG and BOOK are two names;
/// - it loads ELF, and FILE, which is empty if there is none;
/// - it runs the program;
/// - it saves the log under LOG, and the list of turns under BOOK;
/// - it writes the program's stream 1 to out, and its stream 2 and one line to err.
///
/// With a seed its number chooses the turns, on the caller's thread. One hart alone needs no seed, since
/// its turns have one order. Without a seed each of several harts runs in a thread of its own, and the gate is
/// called around its turns. Which turns come then isn't determined. They are legal and finished, and the list
/// under BOOK is theirs. A lean recording keeps no list and saves nothing under BOOK, which then may be
/// LOG's name. [`run_by_schedule`] is told which turns a recording without a seed takes.
///
/// | status | comes |
/// |---|---|
/// | 0 | done |
/// | 10, 11 | a recording is done, and the run ended in a fault; in no fault, and a hart met the limit |
/// | 2 | the words are no command, a setting is out of range, or LOG and BOOK are one name and not lean, or LOG and NEW are |
/// | 3, 4, 5 | the store failed at a name, has nothing under it, or more bytes than such a file may have |
/// | 6 | the loader refuses ELF |
/// | 7 | LOG is no log file |
/// | 8 | the SHA-256 of ELF isn't the one in the log |
/// | 9 | out of memory |
/// | 12 | reading commands failed |
/// | 13 | writing to out or err failed |
/// | 14 | the log keeps no such interval |
/// | 15 | the program doesn't do what the log says, or its Edges wait for each other |
/// | 16 | the audited LOG isn't the file of the run |
/// | 17 | BOOK isn't a whole run: a hart isn't live at its turn, or is live after the last |
/// | 18 | a line of commands has more than 256 bytes, or they have more than 2^24 |
/// | 19 | of a log that should have records the last block is bad: nothing is left to be salvaged |
/// | 20 | there are more races than MAX |
/// | 21 | the interval has no instruction of this count |
///
/// For each status but 0, 10 and 11 a line on err says more.
pub fn run<S: Store, I: Source<O>, O: Sink, X: Sink, G: Gate, R: Threads + Wait + Sync>(
    rt: &R,
    alloc: Global,
    words: &[String],
    store: &mut S,
    input: &mut I,
    out: &mut O,
    err: &mut X,
    gate: &G,
) -> u8
    ensures { Runs None (command_in words.now) result S.note (reading I.source I.note input.old input.new)
        (call S.stored O.stream X.stream store.old out.old err.old store.new out.new err.new) }
{
    run_by_schedule(rt, alloc, words, store, input, out, err, gate, None)
}

/// The same program, which may be given a schedule. A recording without a seed then takes the turns of that, on the
/// caller's thread, and a lean one too: so the schedule determines all that it tells and saves. Other words do as in
/// [`run`], whatever the schedule.
pub fn run_by_schedule<S: Store, I: Source<O>, O: Sink, X: Sink, G: Gate, R: Threads + Wait + Sync>(
    rt: &R,
    alloc: Global,
    words: &[String],
    store: &mut S,
    input: &mut I,
    out: &mut O,
    err: &mut X,
    gate: &G,
    schedule: Option<Schedule>,
) -> u8
    ensures { Runs schedule.entry (command_in words.now) result S.note (reading I.source I.note input.old input.new)
        (call S.stored O.stream X.stream store.old out.old err.old store.new out.new err.new) }
{
    headline();
    joint_headline();
    one_answer();
    each_can_be_done();
    audits_agree();
    obey(rt, alloc, words, store, input, out, err, gate, schedule).code()
}
