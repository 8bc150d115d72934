//! What a command answers that isn't refused, and the bytes of files read as a log or a program.
ghost use Rattle.std.specs.Prelude.{◌≡◌};
ghost use Rattle.sha2.specs.Sha256.{sha256};
ghost use Rattle.log_commands.specs.RunEnds.{end_status, end_word};
ghost use Rattle.log_commands.specs.Outside.{IsOwn, LogTells, ProgramTells};
ghost use Rattle.log_commands.specs.Statuses.{code};

use crate::pairs::JointReading;
use crate::refusal::Refusal;
use crate::status::Status;
use bn_base::{Image, Settings};
use elf_loader::{ElfError, load};
use log_blocks::read_file;
use log_file::LogCounts;
use log_order::KeptLog;
use rv_text::Text;
use sha2::{Digest, Sha256};
use std::alloc::Global;

/// How a run ended.
#[derive(Clone, Copy, Drop)]
pub enum RunEnd {
    /// By no fault, and no hart met the limit.
    Done,
    /// By a fault.
    Fault,
    /// By no fault, and a hart met the limit.
    Limit,
}

impl RunEnd {
    /// The status that the program ends with.
    pub fn status(&self) -> Status
        ensures { code result ≡ end_status self.now }
    {
        match self {
            RunEnd::Done => Status::Done,
            RunEnd::Fault => Status::Fault,
            RunEnd::Limit => Status::Limit,
        }
    }

    /// The word for it.
    #[tactic(auto, unfolding(crate::specs::RunEnds::end_word))]
    pub fn word(&self) -> &'static str
        ensures { result.now ≡ end_word self.now }
    {
        match self {
            RunEnd::Done => "done",
            RunEnd::Fault => "fault",
            RunEnd::Limit => "limit",
        }
    }
}

/// A recording that is to be told: how it ended, what out and err gain, and what is saved.
#[derive(Drop)]
pub struct RunToTell {
    pub end: RunEnd,
    pub out: Vec<u8>,
    pub err: Vec<u8>,
    pub log: Vec<u8>,
    /// The list of turns, if it is saved.
    pub book: Option<Vec<u8>>,
}

/// An interval to be replayed: the program, the log, and the hart and number of the interval.
#[derive(Drop)]
pub struct IntervalToReplay {
    pub image: Image,
    pub log: KeptLog,
    pub hart: u64,
    pub interval: u64,
}

/// A log file of version 2 that is to be saved, and what its log has.
#[derive(Drop)]
pub struct NewLog {
    pub file: Vec<u8>,
    pub counts: LogCounts,
}

/// What a command answers that isn't refused.
#[derive(Drop)]
pub enum Answer {
    /// A recording is saved and told.
    Recorded(RunToTell),
    /// An interval is replayed and printed.
    Interval(IntervalToReplay),
    /// All intervals of a log are replayed together and printed.
    Joined(JointReading),
    /// The intervals of a log are listed.
    Listed(KeptLog),
    /// What a log has is counted.
    Checked(LogCounts),
    /// A log is the file of the run of a list of turns.
    Agreed,
    /// A log that was made of another is saved, and what it has is counted.
    Renewed(NewLog),
    /// A text that is made already: the lines of a demonstration, of races or of a slice.
    Shown(Text),
}

/// The SHA-256 digest (FIPS 180-4).
pub fn digest_of(bytes: &[u8]) -> [u8; 32]
    ensures { result ≡ sha256 bytes.now }
{
    Sha256::digest(bytes)
}

/// What a log file of either version says.
#[tactic(auto, using(crate::proofs::Loads::own_log))]
pub fn read_log(alloc: Global, bytes: &[u8]) -> Result<KeptLog, Refusal>
    ensures says { LogTells bytes.now result }
    ensures own { IsOwn result }
{
    match read_file(alloc, bytes) {
        Ok(log) => Ok(log),
        Err(damage) => Err(Refusal::of_damage(damage)),
    }
}

/// Loads a program with these settings.
pub fn load_program(alloc: Global, elf: &[u8], settings: &Settings) -> Result<Image, Refusal>
    ensures loaded { ProgramTells elf.now settings.now result }
    ensures own { IsOwn result }
{
    match load(alloc, elf, settings) {
        Ok(image) => Ok(image),
        Err(ElfError::OutOfMemory) => Err(Refusal::OutOfMemory),
        Err(error) => Err(Refusal::ElfRefused(error)),
    }
}
