//! The command `record`: settings and names are tested, the program and its input loaded, and the run recorded.
ghost use Rattle.std.specs.Prelude.{◌≡◌, false, [], Option, Some, None, IfOk, IfErr};
ghost use Rattle.bugnet.specs.Common.{sha256, first_bad, RecordLine, seen_recording, image_of, AreBytes, Schedule, IsByInput, elf_roles, input_roles, record_roles, WithFiles};
ghost use Rattle.bugnet.specs.Answers.{names_in, scheduling_by, setting_refusal};
ghost use Rattle.bugnet.specs.ClosedRuns.{MakesRecordings};
ghost use Rattle.bugnet.specs.Command.Record.{is_clash, IsByProgram, IsByNames};
ghost use Rattle.bugnet.specs.LineAnswers.{AnswersLine};
ghost use Rattle.bugnet.specs.Recordings.{IsRun};
ghost use Rattle.bugnet.specs.Saves.{HoldsBytes};
ghost use Rattle.bugnet.specs.Starts.{LoadsStart};

use bn_base::{RawSettings, Settings};
use bn_outside::Store;
use command_words::RecordOptions;
use log_commands::answer::{Answer, RunToTell, digest_of, load_program};
use log_commands::inputs::fetch;
use log_commands::names::{Names, Role};
use log_commands::refusal::Refusal;
use run_model::Start;
use std::alloc::{AllocError, Global};

// Loads the input, if there is one, for a start whose own input is empty.
fn load_input<S: Store>(
    alloc: Global,
    names: &Names,
    mut start: Start,
    has_input: bool,
    files: &mut S,
) -> Result<Start, Refusal>
    requires { start.input.items ≡ [] }
    ensures { LoadsStart names.now (λ how files. IsByInput has_input files names.now (IsRun start.settings start.image start.digest how))
        (input_roles has_input) [] S.note (S.stored files.old) (S.stored files.new) result }
{
    if !has_input {
        return Ok(start);
    }
    let input = fetch(alloc, names, Role::Input, files)?;
    start.input = input;
    Ok(start)
}

// Loads a program from its bytes, and then the input.
fn load_start<S: Store>(
    alloc: Global,
    names: &Names,
    elf: &[u8],
    settings: &Settings,
    has_input: bool,
    files: &mut S,
) -> Result<Start, Refusal>
    ensures bytes { AreBytes elf.now }
    ensures loads { LoadsStart names.now (λ how files. IsByProgram (image_of elf.now settings.now) files names.now settings.now how has_input (sha256 elf.now))
        (input_roles has_input) [] S.note (S.stored files.old) (S.stored files.new) result }
{
    let image = load_program(alloc, elf, settings)?;
    let start = Start {
        image,
        settings: *settings,
        input: Vec::new(alloc),
        digest: digest_of(elf),
    };
    load_input(alloc, names, start, has_input, files)
}

// Loads the program file, and then the input.
fn load_files<S: Store>(
    alloc: Global,
    names: &Names,
    settings: &Settings,
    has_input: bool,
    files: &mut S,
) -> Result<Start, Refusal>
    ensures bytes { IfOk result (λ _. WithFiles (S.stored files.old).files (λ files. HoldsBytes (files names.now.elf))) }
    ensures loads { LoadsStart names.now (λ how files. IsByNames false files names.now settings.now how has_input)
        (record_roles has_input) elf_roles S.note (S.stored files.old) (S.stored files.new) result }
{
    let elf = fetch(alloc, names, Role::Elf, files)?;
    load_start(alloc, names, &elf, settings, has_input, files)
}

// Whether LOG and BOOK are one name, if both are saved.
fn clashes(lean: bool, log: &str, book: &str) -> bool
    ensures { result ≡ is_clash lean log.now book.now }
{
    if lean { false } else { log == book }
}

// The settings, if they are in range, and LOG and BOOK are two names, or BOOK isn't saved.
fn tested(names: &Names, settings: &RawSettings, lean: bool) -> Result<Settings, Refusal>
    ensures ok { IfOk result (λ s. (s ≡ settings.now) × (setting_refusal (first_bad settings.now) (is_clash lean names.now.log names.now.book) ≡ None)) }
    ensures refused { IfErr result (λ r. setting_refusal (first_bad settings.now) (is_clash lean names.now.log names.now.book) ≡ Some r) }
{
    match Settings::checked(settings) {
        Err(bad) => Err(Refusal::OutOfRange(bad)),
        Ok(settings) => {
            if clashes(lean, names.log, names.book) {
                Err(Refusal::SameName)
            } else {
                Ok(settings)
            }
        }
    }
}

/// Tests the settings and the names, loads the program and its input, and has `make` record the run.
pub fn evaluate<S: Store, F: FnOnce(&Start) -> Result<RunToTell, AllocError>>(
    alloc: Global,
    names: &Names,
    options: &RecordOptions,
    files: &mut S,
    make: F,
) -> Result<Answer, Refusal>
    requires named { names.now ≡ names_in (RecordLine (seen_recording options.now)) }
    requires callable { F.IsAlwaysCallable make }
    ensures bytes { IfOk result (λ _. WithFiles (S.stored files.old).files (λ files. HoldsBytes (files names.now.elf))) }
    ensures answers { (schedule : Option Schedule) → MakesRecordings F.FnOnce make (scheduling_by (seen_recording options.now) schedule)
        → AnswersLine schedule (RecordLine (seen_recording options.now)) names.now S.note (S.stored files.old) (S.stored files.new) result }
{
    let settings = tested(names, &options.settings, options.lean)?;
    let start = load_files(alloc, names, &settings, options.input.is_some(), files)?;
    let run = make(&start)?;
    Ok(Answer::Recorded(run))
}
