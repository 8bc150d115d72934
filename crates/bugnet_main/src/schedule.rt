//! Which turns a recording without a seed takes, as the environment names them.
ghost use Rattle.std.specs.Prelude.{◌≡◌, ◌≢◌, ◌++◌, ℕ, List, codes, Some, Ok, IfOk, IfSome, IsSome, MatchResult, OnSome};
ghost use Rattle.bugnet.specs.Command.Record.{is_clash};
ghost use Rattle.command_words.specs.Words.{command_in, number_of, seen_recording};
ghost use Rattle.bugnet_main.specs.Asked.{AskForTurns, TakesTurns, IsFor, IsUnasked, LoadsList, FindsTurns, IsSaid, SaysWhy, TellsLine, drawn_by, harts_by};

use bn_base::Settings;
use bn_outside::{Manner, Schedule, Sink, Store, send_all};
use bugnet::Status;
use command_words::{Command, RecordOptions, WordsError, read_words};
use log_commands::inputs::fetch;
use log_commands::names::{Names, Role};
use log_commands::refusal::Refusal;
use log_commands::send::refuse;
use std::alloc::Global;
use std::env;
use std::env::{Env, VarError};

/// Which turns a recording without a seed takes.
#[derive(Drop)]
pub enum Turns {
    /// Those of harts in threads.
    OfThreads,
    /// Those that a number draws.
    Drawn { manner: Manner, number: u64 },
    /// Those of a list.
    Listed(Vec<u8>),
}

impl Turns {
    /// The schedule that the recording is given; none for threads.
    pub fn schedule(&self) -> Option<Schedule<'_>>
        ensures { IsFor self.now result }
    {
        match self {
            Turns::OfThreads => None,
            Turns::Drawn { manner, number } => Some(Schedule::Drawn {
                manner: *manner,
                number: *number,
            }),
            Turns::Listed(list) => Some(Schedule::Listed(list)),
        }
    }
}

/// Tells on err that memory ran out.
pub fn tell_out_of_memory<X: Sink>(err: &mut X) -> Status
    ensures status { result ≡ Status.OutOfMemory }
    ensures line { TellsLine (codes "bugnet: out of memory\n") (X.stream err.old) (X.stream err.new) }
{
    let _ = send_all(err, b"bugnet: out of memory\n");
    Status::OutOfMemory
}

// What a text says of turns.
#[derive(Clone, Copy)]
enum Said<'a> {
    Drawn { manner: Manner, number: u64 },
    Book(&'a str),
}

// Turns that a number draws in this manner, if the text is a number. It is one exactly if `--seed` takes it.
#[tactic(auto, using(crate::proofs::Numbers::number_read))]
fn drawn<'a>(manner: Manner, text: &str) -> Option<Said<'a>>
    ensures { result ≡ drawn_by manner (number_of text.now) }
{
    match text.parse::<u64>() {
        Ok(number) => Some(Said::Drawn { manner, number }),
        Err(_) => None,
    }
}

// What a text says of turns, if it is understood.
fn said_by(text: &str) -> Option<Said<'_>>
    ensures said { IfSome result (IsSaid text.now) }
    ensures bursts { (digits : List ℕ) → text.now ≡ codes "bursts:" ++ digits → result ≡ drawn_by Manner.Bursts (number_of digits) }
    ensures sleeper { (digits : List ℕ) → text.now ≡ codes "sleeper:" ++ digits → result ≡ drawn_by Manner.Sleeper (number_of digits) }
    ensures book { (name : List ℕ) → text.now ≡ codes "book:" ++ name → IsSome result }
{
    if let Some(number) = text.strip_prefix("bursts:") {
        return drawn(Manner::Bursts, number);
    }
    if let Some(number) = text.strip_prefix("sleeper:") {
        return drawn(Manner::Sleeper, number);
    }
    match text.strip_prefix("book:") {
        Some(name) => Some(Said::Book(name)),
        None => None,
    }
}

// Whether LOG and BOOK are one name, if both are saved.
fn clashes(options: &RecordOptions) -> bool
    ensures { result ≡ is_clash options.now.lean options.now.log.now options.now.book.now }
{
    if options.lean {
        return false;
    }
    options.log == options.book
}

// How many harts a recording has, if it has no seed and isn't refused by its words.
fn harts_of(options: &RecordOptions) -> Option<u8>
    ensures some { OnSome result (TakesTurns (seen_recording options.now)) }
    ensures all { TakesTurns (seen_recording options.now) → result ≡ Some options.now.settings.harts }
{
    if options.seed.is_some() || clashes(options) {
        return None;
    }
    match Settings::checked(&options.settings) {
        Ok(settings) => Some(settings.harts()),
        Err(_) => None,
    }
}

// The same of words: none if they ask for anything else, or are refused. The error is that memory ran out.
fn harts_in(alloc: Global, words: &[String]) -> Result<Option<u8>, WordsError>
    ensures some { MatchResult result (λ harts. OnSome harts (AskForTurns (command_in words.now))) (λ error. error ≡ WordsError.OutOfMemory) }
    ensures all { IfOk result (λ harts. AskForTurns (command_in words.now) → harts ≡ harts_by (command_in words.now)) }
{
    match read_words(alloc, words) {
        Ok(Command::Record(options)) => Ok(harts_of(&options)),
        Ok(_) => Ok(None),
        Err(WordsError::Refused) => Ok(None),
        Err(WordsError::OutOfMemory) => Err(WordsError::OutOfMemory),
    }
}

// The turns of the list of this name.
fn listed<S: Store, X: Sink>(
    alloc: Global,
    name: &str,
    files: &mut S,
    err: &mut X,
) -> Result<Turns, Status>
    ensures still { (S.stored files.new).files ≡ (S.stored files.old).files }
    ensures saves { (S.stored files.new).saves ≡ (S.stored files.old).saves }
    ensures list { LoadsList name.now S.note (S.stored files.old) (S.stored files.new) result }
    ensures told { SaysWhy (X.stream err.old) (X.stream err.new) result }
{
    let names = Names {
        elf: "",
        log: "",
        book: name,
        input: "",
        origin: "",
    };
    match fetch(alloc, &names, Role::Book, files) {
        Ok(list) => Ok(Turns::Listed(list)),
        Err(refusal) => Err(refuse(alloc, &names, &refusal, err)),
    }
}

// Tells on err that the variable isn't understood.
fn tell_refused<X: Sink>(err: &mut X) -> Status
    ensures status { result ≡ Status.WordsRefused }
    ensures line { TellsLine (codes "bugnet: ZELKUMA_SCHEDULE refused\n") (X.stream err.old) (X.stream err.new) }
{
    let _ = send_all(err, b"bugnet: ZELKUMA_SCHEDULE refused\n");
    Status::WordsRefused
}

// The turns that a text names, for so many harts. Those of one hart have one order alone, so it needs no schedule.
fn named<S: Store, X: Sink>(
    alloc: Global,
    text: &str,
    harts: u8,
    files: &mut S,
    err: &mut X,
) -> Result<Turns, Status>
    ensures finds { FindsTurns S.note (S.stored files.old) (S.stored files.new) (X.stream err.old) (X.stream err.new) result }
    ensures lone { harts ≡ 1 → (files.new ≡ files.old) × MatchResult result (λ turns. turns ≡ Turns.OfThreads) (λ status. status ≡ Status.WordsRefused) }
    ensures bursts { (digits : List ℕ) (n : ℕ) → text.now ≡ codes "bursts:" ++ digits → number_of digits ≡ Some n → harts ≢ 1 → result ≡ Ok (Turns.Drawn Manner.Bursts n) }
    ensures sleeper { (digits : List ℕ) (n : ℕ) → text.now ≡ codes "sleeper:" ++ digits → number_of digits ≡ Some n → harts ≢ 1 → result ≡ Ok (Turns.Drawn Manner.Sleeper n) }
    ensures book { (name : List ℕ) → text.now ≡ codes "book:" ++ name → harts ≢ 1 → LoadsList name S.note (S.stored files.old) (S.stored files.new) result }
{
    let Some(said) = said_by(text) else {
        return Err(tell_refused(err));
    };
    if harts == 1 {
        return Ok(Turns::OfThreads);
    }
    match said {
        Said::Drawn { manner, number } => Ok(Turns::Drawn { manner, number }),
        Said::Book(name) => listed(alloc, name, files, err),
    }
}

// The turns that the environment names for so many harts, or those of threads.
fn turns_for<R: Env + AllocGlobal, S: Store, X: Sink>(
    rt: &R,
    alloc: Global,
    harts: u8,
    files: &mut S,
    err: &mut X,
) -> Result<Turns, Status>
    ensures finds { FindsTurns S.note (S.stored files.old) (S.stored files.new) (X.stream err.old) (X.stream err.new) result }
{
    match env::var(rt, "ZELKUMA_SCHEDULE") {
        Ok(text) => {
            if text.is_empty() {
                return Ok(Turns::OfThreads);
            }
            named(alloc, text.as_str(), harts, files, err)
        }
        Err(VarError::NotPresent) => Ok(Turns::OfThreads),
        Err(VarError::NotUnicode) => Err(tell_refused(err)),
        Err(VarError::OutOfMemory) => Err(tell_out_of_memory(err)),
    }
}

/// The turns that the environment names in ZELKUMA_SCHEDULE for a recording, or those of threads if it names none.
///
/// Only words that are accepted, and ask for a recording without a seed, have it looked at. What isn't understood, and a
/// list that can't be loaded, is told on err, and gives the status. The store is called only for a list: by one load, and a
/// list that is given is what the name has. Without a load the status is 2 or 9; else it is that of the load, or 9.
pub fn turns_of<R: Env + AllocGlobal, S: Store, X: Sink>(
    rt: &R,
    alloc: Global,
    words: &[String],
    files: &mut S,
    err: &mut X,
) -> Result<Turns, Status>
    ensures unasked { (AskForTurns (command_in words.now) → ⊥) → (files.new ≡ files.old) × IsUnasked result }
    ensures finds { FindsTurns S.note (S.stored files.old) (S.stored files.new) (X.stream err.old) (X.stream err.new) result }
{
    match harts_in(alloc, words) {
        Ok(Some(harts)) => turns_for(rt, alloc, harts, files, err),
        Ok(None) => Ok(Turns::OfThreads),
        Err(_) => Err(tell_out_of_memory(err)),
    }
}
