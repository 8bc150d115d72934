//! The line of a refusal on err; each of its bytes is said in specs/Refusals.antt.
ghost use Rattle.std.specs.Prelude.{◌≡◌, ◌++◌, OnOk, codes, decimal};
ghost use Rattle.log_commands.specs.Common.{hex8, setting_name, mark_text};
ghost use Rattle.log_commands.specs.Refusals.{digest_text, pair_text, digests_text, elf_said, file_said, log_said, replay_said, position_text, positions_text, book_said, said_of, line_of};
ghost use Rattle.log_commands.specs.Marks.{counted};

use crate::names::Names;
use crate::refusal::Refusal;
use crate::texts::push_counted;
use bn_base::{BadSetting, EndMark, HartId, Ic};
use elf_loader::ElfError;
use hart_replay::ReplayError;
use log_blocks::Damage;
use log_file::FileError;
use run_model::TurnError;
use rv_text::{Text, write_mark};
use std::alloc::{AllocError, Global};

#[tactic(auto, unfolding(crate::specs::Refusals::digest_text))]
fn push_digest(alloc: Global, text: &mut Text, digest: &[u8; 32]) -> Result<(), AllocError>
    ensures { OnOk result (text.new ≡ text.old ++ digest_text digest.now) }
{
    for byte in digest {
        let piece = format!(in alloc; "{byte:02x}")?;
        text.push_str(piece.as_str())?;
    }
    Ok(())
}

// Appends two digests after a word.
#[tactic(auto, unfolding(crate::specs::Refusals::digests_text))]
fn push_digests(
    alloc: Global,
    text: &mut Text,
    word: &str,
    a: &[u8; 32],
    b: &[u8; 32],
) -> Result<(), AllocError>
    ensures { OnOk result (text.new ≡ text.old ++ digests_text word.now a.now b.now) }
{
    text.push_str(word)?;
    push_digest(alloc, text, a)?;
    text.push_str(" ")?;
    push_digest(alloc, text, b)
}

// Appends two numbers after a word.
#[tactic(auto, unfolding(crate::specs::Refusals::pair_text))]
fn push_pair(text: &mut Text, word: &str, a: u64, b: u64) -> Result<(), AllocError>
    ensures { OnOk result (text.new ≡ text.old ++ pair_text word.now a b) }
{
    text.push_str(word)?;
    text.push_decimal(a)?;
    text.push_str(" ")?;
    text.push_decimal(b)
}

// Appends a number of 32 bits, in hexadecimal, after a word.
fn push_word(text: &mut Text, word: &str, n: u32) -> Result<(), AllocError>
    ensures { OnOk result (text.new ≡ text.old ++ (word.now ++ hex8 n)) }
{
    text.push_str(word)?;
    text.push_hex8(n)
}

// Appends a name after a word.
fn push_named(text: &mut Text, word: &str, name: &str) -> Result<(), AllocError>
    ensures { OnOk result (text.new ≡ text.old ++ (word.now ++ name.now)) }
{
    text.push_str(word)?;
    text.push_str(name)
}

#[tactic(auto, unfolding(crate::specs::Refusals::elf_said))]
fn push_elf(text: &mut Text, error: &ElfError) -> Result<(), AllocError>
    ensures { OnOk result (text.new ≡ text.old ++ elf_said error.now) }
{
    match *error {
        ElfError::NotElf => text.push_str("elf: NotElf"),
        ElfError::Truncated { at, length } => push_pair(text, "elf: Truncated ", at, length),
        ElfError::NotRv32 => text.push_str("elf: NotRv32"),
        ElfError::NotStatic => text.push_str("elf: NotStatic"),
        ElfError::NeedsCompressed => text.push_str("elf: NeedsCompressed"),
        ElfError::NeedsE => text.push_str("elf: NeedsE"),
        ElfError::TooMany { count } => push_counted(text, "elf: TooMany ", count),
        ElfError::Outside { segment } => push_counted(text, "elf: Outside ", segment),
        ElfError::SegmentsTouch { first, second } => {
            push_pair(text, "elf: SegmentsTouch ", first, second)
        }
        ElfError::NoSegment => text.push_str("elf: NoSegment"),
        ElfError::EntryOutside { entry } => push_word(text, "elf: EntryOutside ", entry),
        ElfError::OutOfMemory => text.push_str("out of memory"),
    }
}

#[tactic(auto, unfolding(crate::specs::Refusals::file_said))]
fn push_file(alloc: Global, text: &mut Text, error: &FileError) -> Result<(), AllocError>
    ensures { OnOk result (text.new ≡ text.old ++ file_said error.now) }
{
    match error {
        FileError::Short { length } => push_counted(text, "log: Short ", *length),
        FileError::BadMagic => text.push_str("log: BadMagic"),
        FileError::BadVersion { found } => push_counted(text, "log: BadVersion ", *found),
        FileError::BadHead { field, value } => push_pair(text, "log: BadHead ", *field, *value),
        FileError::LengthDiffers { said, found } => {
            push_pair(text, "log: LengthDiffers ", *said, *found)
        }
        FileError::DigestDiffers { kept, found } => {
            push_digests(alloc, text, "log: DigestDiffers ", kept, found)
        }
        FileError::BadRecord { at } => push_counted(text, "log: BadRecord ", *at),
        FileError::BadOrder { at, rule } => push_pair(text, "log: BadOrder ", *at, *rule),
        FileError::OutOfMemory => text.push_str("out of memory"),
    }
}

#[tactic(auto, unfolding(crate::specs::Refusals::log_said))]
fn push_log(alloc: Global, text: &mut Text, damage: &Damage) -> Result<(), AllocError>
    ensures { OnOk result (text.new ≡ text.old ++ log_said damage.now) }
{
    match damage {
        Damage::File(error) => push_file(alloc, text, error),
        Damage::BadBlock { at } => push_counted(text, "log: BadBlock ", *at),
    }
}

// Appends the mark that was said and the one that was found.
fn push_marks(text: &mut Text, hart: u8, said: &EndMark, found: &EndMark) -> Result<(), AllocError>
    ensures { OnOk result (text.new ≡ text.old ++ (decimal hart ++ codes " " ++ mark_text said.now ++ codes " " ++ mark_text found.now)) }
{
    text.push_decimal(u64::from(hart))?;
    text.push_str(" ")?;
    write_mark(said, text)?;
    text.push_str(" ")?;
    write_mark(found, text)
}

// Appends how an end differs.
fn push_ends(text: &mut Text, hart: u8, said: &EndMark, found: &EndMark) -> Result<(), AllocError>
    ensures { OnOk result (text.new ≡ text.old ++ (codes "replay: EndDiffers " ++ (decimal hart ++ codes " " ++ mark_text said.now ++ codes " " ++ mark_text found.now))) }
{
    text.push_str("replay: EndDiffers ")?;
    push_marks(text, hart, said, found)
}

// Appends the place at which a replay misses a word.
fn push_missing(text: &mut Text, hart: u8, ic: u64, addr: u32) -> Result<(), AllocError>
    ensures { OnOk result (text.new ≡ text.old ++ (pair_text (codes "replay: LoadMissing ") hart ic ++ (codes " " ++ hex8 addr))) }
{
    push_pair(text, "replay: LoadMissing ", u64::from(hart), ic)?;
    push_word(text, " ", addr)
}

#[tactic(auto, unfolding(crate::specs::Refusals::replay_said))]
fn push_replay(text: &mut Text, error: &ReplayError) -> Result<(), AllocError>
    ensures { OnOk result (text.new ≡ text.old ++ replay_said error.now) }
{
    match error {
        ReplayError::NoInterval { hart, interval } => {
            push_pair(text, "no interval ", *hart, *interval)
        }
        ReplayError::LoadMissing { hart, ic, addr } => push_missing(text, *hart, *ic, *addr),
        ReplayError::ScMissing { hart, ic } => {
            push_pair(text, "replay: ScMissing ", u64::from(*hart), *ic)
        }
        ReplayError::RecordsLeft { hart, left } => {
            push_pair(text, "replay: RecordsLeft ", u64::from(*hart), *left)
        }
        ReplayError::EndDiffers { hart, said, found } => push_ends(text, *hart, said, found),
        ReplayError::OutOfMemory => text.push_str("out of memory"),
    }
}

// Appends a hart that isn't done, with its next count.
#[tactic(auto, unfolding(crate::specs::Refusals::position_text))]
fn push_position(text: &mut Text, position: (HartId, Ic)) -> Result<(), AllocError>
    ensures { OnOk result (text.new ≡ text.old ++ position_text position) }
{
    text.push_str(" ")?;
    text.push_decimal(u64::from(position.0))?;
    text.push_str(":")?;
    text.push_decimal(position.1)
}

// Appends the harts that aren't done.
#[tactic(auto, unfolding(crate::specs::Refusals::positions_text))]
fn push_positions(text: &mut Text, positions: &[(HartId, Ic)]) -> Result<(), AllocError>
    ensures { OnOk result (text.new ≡ text.old ++ positions_text positions.now) }
{
    for position in positions {
        push_position(text, *position)?;
    }
    Ok(())
}

// Appends that no hart is ready.
fn push_stuck(text: &mut Text, positions: &[(HartId, Ic)]) -> Result<(), AllocError>
    ensures { OnOk result (text.new ≡ text.old ++ (codes "replay: Stuck" ++ positions_text positions.now)) }
{
    text.push_str("replay: Stuck")?;
    push_positions(text, positions)
}

fn push_turn(text: &mut Text, at: u64, hart: HartId) -> Result<(), AllocError>
    ensures { OnOk result (text.new ≡ text.old ++ (counted (codes "book: turn ") at ++ counted (codes " hart ") hart)) }
{
    push_counted(text, "book: turn ", at)?;
    push_counted(text, " hart ", u64::from(hart))
}

#[tactic(auto, unfolding(crate::specs::Refusals::book_said))]
fn push_book(text: &mut Text, error: &TurnError) -> Result<(), AllocError>
    ensures { OnOk result (text.new ≡ text.old ++ book_said error.now) }
{
    match error {
        TurnError::IllegalTurn { at, hart } => push_turn(text, *at, *hart),
        TurnError::NotFinished { live } => {
            push_counted(text, "book: unfinished ", u64::from(*live))
        }
        TurnError::OutOfMemory => text.push_str("out of memory"),
    }
}

fn push_setting(text: &mut Text, bad: &BadSetting) -> Result<(), AllocError>
    ensures { OnOk result (text.new ≡ text.old ++ (codes "setting " ++ setting_name bad.now.field ++ codes " " ++ decimal bad.now.value)) }
{
    text.push_str("setting ")?;
    text.push_str(bad.name())?;
    text.push_str(" ")?;
    text.push_decimal(bad.value)
}

impl Refusal {
    // What its line says.
    #[tactic(auto, unfolding(crate::specs::Refusals::said_of))]
    fn push_said(&self, alloc: Global, names: &Names, text: &mut Text) -> Result<(), AllocError>
        ensures { OnOk result (text.new ≡ text.old ++ said_of names.now self.now) }
    {
        match self {
            Refusal::WordsRefused => text.push_str("words refused"),
            Refusal::OutOfRange(bad) => push_setting(text, bad),
            Refusal::SameName => push_named(text, "same name ", names.log),
            Refusal::StoreFailed(role) => push_named(text, "store failed: ", names.of(*role)),
            Refusal::Missing(role) => push_named(text, "missing: ", names.of(*role)),
            Refusal::TooLong(role) => push_named(text, "too long: ", names.of(*role)),
            Refusal::ElfRefused(error) => push_elf(text, error),
            Refusal::LogRefused(error) => push_log(alloc, text, error),
            Refusal::ProgramDiffers { kept, found } => {
                push_digests(alloc, text, "program differs: ", kept, found)
            }
            Refusal::OutOfMemory => text.push_str("out of memory"),
            Refusal::WriteFailed => text.push_str("write failed"),
            Refusal::ReplayStopped(error) => push_replay(text, error),
            Refusal::JointStuck { positions } => push_stuck(text, positions.as_slice()),
            Refusal::ReadFailed => text.push_str("read failed"),
            Refusal::LineTooLong => text.push_str("line too long"),
            Refusal::CommandsTooLong => text.push_str("commands too long"),
            Refusal::BookRefused(error) => push_book(text, error),
            Refusal::FileDiffers { at_byte } => push_counted(text, "differs at ", *at_byte),
            Refusal::NothingLeft => text.push_str("nothing left"),
            Refusal::TooManyRaces { most } => push_counted(text, "races: more than ", *most),
            Refusal::NoRow { ic } => push_counted(text, "no row ", *ic),
        }
    }

    /// Appends its line.
    #[tactic(auto, unfolding(crate::specs::Refusals::line_of))]
    pub fn push_line(&self, alloc: Global, names: &Names, text: &mut Text) -> Result<(), AllocError>
        ensures { OnOk result (text.new ≡ text.old ++ line_of names.now self.now) }
    {
        text.push_str("bugnet: ")?;
        self.push_said(alloc, names, text)?;
        text.push_str("\n")
    }
}
