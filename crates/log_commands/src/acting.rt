//! What is done with an answer: its files are saved, and then its texts printed.
ghost use Rattle.bn_outside.specs.Streams.{Stream};
ghost use Rattle.log_commands.specs.Acting.{SavesFile, SavesAll, ActsTo};
ghost use Rattle.log_commands.specs.Effects.{done_of, world};
ghost use Rattle.log_commands.specs.Outside.{saved_of};
ghost use Rattle.log_commands.specs.SaveCounts.{is_lean};
ghost use Rattle.log_commands.specs.declared.answer.Answer.TheVariants.{Recorded, Renewed};

use crate::answer::{Answer, NewLog, RunToTell};
use crate::commands::{audit, check, joint, list, replay};
use crate::names::{Names, Role};
use crate::refusal::Refusal;
use crate::send::{done, send, send_bytes};
use crate::status::Status;
use bn_outside::{SaveError, Sink, Store};
use std::alloc::Global;

// Saves the file in a role.
fn save_file<S: Store>(names: &Names, role: Role, file: &[u8], files: &mut S) -> Result<(), Refusal>
    ensures { SavesFile names.now role file.now S.note (S.stored files.old) (S.stored files.new) result }
{
    match files.save(names.of(role), file) {
        Ok(()) => Ok(()),
        Err(SaveError::Failed) => Err(Refusal::StoreFailed(role)),
        Err(SaveError::OutOfMemory) => Err(Refusal::OutOfMemory),
    }
}

// Saves the log of a recording, and then the list of its turns, if there is one.
fn save_run<S: Store>(names: &Names, run: &RunToTell, files: &mut S) -> Result<(), Refusal>
    ensures { SavesAll names.now (saved_of run.now) (is_lean run.now) S.note (S.stored files.old) (S.stored files.new) result }
{
    save_file(names, Role::Log, &run.log, files)?;
    match &run.book {
        None => Ok(()),
        Some(list) => save_file(names, Role::Book, list, files),
    }
}

// Saves a recording, and then sends the guest's streams and the summary.
fn keep_run<S: Store, O: Sink, X: Sink>(
    names: &Names,
    run: &RunToTell,
    files: &mut S,
    out: &mut O,
    err: &mut X,
) -> Result<Status, Refusal>
    ensures { ActsTo names.now (Recorded run.now) S.note (world (S.stored files.old) (O.stream out.old) (X.stream err.old)) (world (S.stored files.new) (O.stream out.new) (X.stream err.new)) result }
{
    save_run(names, run, files)?;
    send_bytes(out, &run.out)?;
    send_bytes(err, &run.err)?;
    Ok(run.end.status())
}

// Saves a log that was made of another, and then sends what it has.
fn keep_new<S: Store, O: Sink>(
    alloc: Global,
    names: &Names,
    new: &NewLog,
    files: &mut S,
    out: &mut O,
) -> Result<(), Refusal>
    ensures { (err : Stream) → ActsTo names.now (Renewed new.now) S.note (world (S.stored files.old) (O.stream out.old) err) (world (S.stored files.new) (O.stream out.new) err) (done_of result) }
{
    save_file(names, Role::Log, &new.file, files)?;
    check::send_check(alloc, &new.counts, out)
}

/// Saves and prints an answer. On a refusal nothing is told on err: the caller does that.
pub fn act<S: Store, O: Sink, X: Sink>(
    alloc: Global,
    names: &Names,
    answer: &Answer,
    files: &mut S,
    out: &mut O,
    err: &mut X,
) -> Result<Status, Refusal>
    ensures { ActsTo names.now answer.now S.note (world (S.stored files.old) (O.stream out.old) (X.stream err.old)) (world (S.stored files.new) (O.stream out.new) (X.stream err.new)) result }
{
    match answer {
        Answer::Recorded(run) => keep_run(names, run, files, out, err),
        Answer::Renewed(new) => done(keep_new(alloc, names, new, files, out)),
        Answer::Interval(reading) => done(replay::print_interval(alloc, reading, out)),
        Answer::Joined(reading) => done(joint::print_joint(alloc, reading, out)),
        Answer::Listed(log) => done(list::send_list(alloc, log, out)),
        Answer::Checked(counts) => done(check::send_check(alloc, counts, out)),
        Answer::Agreed => done(audit::send_agreement(alloc, out)),
        Answer::Shown(text) => done(send(out, text)),
    }
}
