//! A recording, by whatever chooses its turns: a seed, a schedule, one hart alone, or threads.
ghost use Rattle.std.specs.Prelude.{◌≡◌, Option, Some, None, IfOk, MatchOption};
ghost use Rattle.bugnet.specs.Common.{Schedule, seen, seen_recording, RecordLine, call};
ghost use Rattle.bugnet.specs.ClosedRuns.{IsRecordingBy, MakesRecordings};
ghost use Rattle.bugnet.specs.Answers.{scheduling_by, names_in};
ghost use Rattle.bugnet.specs.Replies.{RepliesTo};
ghost use Rattle.bugnet.specs.Laws.{NeedsNoThreads};

use crate::commands::record;
use crate::laws::{files_keep_to_their_size, seeds_are_whole};
use crate::recorder;
use bn_outside::{Gate, Schedule, Sink, Store};
use command_words::{Command, RecordOptions};
use file_laws::logs_are_contents;
use log_commands::acting::act;
use log_commands::answer::RunToTell;
use log_commands::names::Names;
use log_commands::refusal::Refusal;
use log_commands::status::Status;
use run_model::Start;
use std::alloc::{AllocError, Global};
use std::sync::Wait;
use std::thread::Threads;

/// Does what the words of a recording ask for. Its run is what `make` gives: if that is of a schedule, so is all that is done.
pub fn keep_recording<
    S: Store,
    O: Sink,
    X: Sink,
    F: FnOnce(&Start) -> Result<RunToTell, AllocError>,
>(
    alloc: Global,
    options: &RecordOptions,
    names: &Names,
    files: &mut S,
    out: &mut O,
    err: &mut X,
    make: F,
) -> Result<Status, Refusal>
    requires named { names.now ≡ names_in (RecordLine (seen_recording options.now)) }
    requires callable { F.IsAlwaysCallable make }
    ensures { (schedule : Option Schedule) → MakesRecordings F.FnOnce make (scheduling_by (seen_recording options.now) schedule)
        → RepliesTo schedule (RecordLine (seen_recording options.now)) names.now S.note (call S.stored O.stream X.stream files.old out.old err.old files.new out.new err.new) result }
{
    // Laws:
    seeds_are_whole();
    files_keep_to_their_size();
    logs_are_contents();
    let answer = record::evaluate(alloc, names, options, files, make)?;
    act(alloc, names, &answer, files, out, err)
}

/// A schedule that a recording is given, or none. A closure's contract can name it only behind a bound, since its own type
/// has a lifetime.
pub trait Given {
    ghost use Rattle.std.specs.Prelude.{Option};
    ghost use Rattle.bn_outside.specs.declared.schedule.Schedule.{Schedule};

    /// What is given.
    ghost given: { Self → Option Schedule };

    fn schedule(&self) -> Option<Schedule<'_>>
        ensures { result ≡ given self.now };
}

impl Given for Option<Schedule<'_>> {
    ghost given = { λ schedule. schedule };

    fn schedule(&self) -> Option<Schedule<'_>> {
        *self
    }
}

/// Does what the words of a recording without a seed ask for on this thread: by the schedule, or by the turns of one hart.
pub fn keep_scheduled<S: Store, O: Sink, X: Sink, D: Given>(
    alloc: Global,
    options: &RecordOptions,
    names: &Names,
    files: &mut S,
    out: &mut O,
    err: &mut X,
    given: &D,
) -> Result<Status, Refusal>
    requires named { names.now ≡ names_in (RecordLine (seen_recording options.now)) }
    requires unseeded { options.now.seed ≡ None }
    ensures { RepliesTo (D.given given.now) (RecordLine (seen_recording options.now)) names.now S.note (call S.stored O.stream X.stream files.old out.old err.old files.new out.new err.new) result }
{
    let lean = options.lean;
    keep_recording(
        alloc,
        options,
        names,
        files,
        out,
        err,
        |start: &Start| -> Result<RunToTell, AllocError>
            ensures { IfOk result (λ r. IsRecordingBy start.now (record { seed = None; lean = lean; schedule = D.given given.entry.now }) r) }
        { recorder::record_scheduled(alloc, start, lean, given.schedule()) },
    )
}

/// The options of a recording whose harts need threads: several, whose turns neither a seed nor a schedule chooses.
pub fn threaded<'a, 'b>(
    command: &'b Command<'a>,
    schedule: Option<Schedule>,
) -> Option<&'b RecordOptions<'a>>
    ensures { MatchOption result (NeedsNoThreads schedule.entry (Some (seen command.now)))
        (λ options. (seen command.now ≡ RecordLine (seen_recording options.now)) × (options.now.seed ≡ None) × (schedule.entry ≡ None)) }
{
    match command {
        Command::Record(options) => match (options.seed, schedule) {
            (None, None) => {
                if options.settings.harts == 1 {
                    None
                } else {
                    Some(options)
                }
            }
            _ => None,
        },
        _ => None,
    }
}

/// Does what the words of a recording ask for whose harts run in threads.
pub fn keep_threaded<S: Store, O: Sink, X: Sink, G: Gate, R: Threads + Wait + Sync>(
    rt: &R,
    alloc: Global,
    options: &RecordOptions,
    names: &Names,
    files: &mut S,
    out: &mut O,
    err: &mut X,
    gate: &G,
) -> Result<Status, Refusal>
    requires named { names.now ≡ names_in (RecordLine (seen_recording options.now)) }
    requires unseeded { options.now.seed ≡ None }
    ensures { RepliesTo None (RecordLine (seen_recording options.now)) names.now S.note (call S.stored O.stream X.stream files.old out.old err.old files.new out.new err.new) result }
{
    let lean = options.lean;
    keep_recording(
        alloc,
        options,
        names,
        files,
        out,
        err,
        |start: &Start| -> Result<RunToTell, AllocError>
            ensures { IfOk result (λ r. IsRecordingBy start.now (record { seed = None; lean = lean; schedule = None }) r) }
        { recorder::record_threaded(rt, alloc, start, lean, gate) },
    )
}
