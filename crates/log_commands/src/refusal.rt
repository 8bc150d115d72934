//! Why a command is refused, and the status of each refusal. Its line is in `lines.rt`.
ghost use Rattle.std.specs.Prelude.{◌≡◌};
ghost use Rattle.log_commands.specs.Refusals.{status_of, replay_status, log_refusal, joint_refusal};
ghost use Rattle.log_commands.specs.Statuses.{code};
ghost use Rattle.log_commands.specs.declared.refusal.Refusal.TheVariants.{OutOfMemory};

use crate::names::Role;
use crate::status::Status;
use bn_base::{BadSetting, HartId, Ic, List};
use elf_loader::ElfError;
use hart_replay::ReplayError;
use joint_replay::JointError;
use log_blocks::Damage;
use log_file::FileError;
use run_model::TurnError;
use std::alloc::AllocError;
use thiserror::Error;

/// Why a command is refused. An error held in a refusal is never its OutOfMemory.
// The line on err has the names and numbers too: lines.rt.
#[derive(Debug, Drop, Error)]
pub enum Refusal {
    /// The words are no command.
    #[error("the words are no command")]
    WordsRefused,
    /// A setting is out of range.
    #[error("{0}")]
    OutOfRange(BadSetting),
    /// LOG and BOOK are one name, or LOG and NEW.
    #[error("two files have one name")]
    SameName,
    /// The store failed at the file's name.
    #[error("the store failed")]
    StoreFailed(Role),
    /// The store has nothing under the file's name.
    #[error("no such name in the store")]
    Missing(Role),
    /// The name has more bytes than such a file may have.
    #[error("more bytes than such a file may have")]
    TooLong(Role),
    /// The loader refuses the program file.
    #[error("{0}")]
    ElfRefused(ElfError),
    /// The bytes are no log file.
    #[error("{0}")]
    LogRefused(Damage),
    /// The log was recorded of a program file with another digest.
    #[error("the log is of another program")]
    ProgramDiffers { kept: [u8; 32], found: [u8; 32] },
    /// Out of memory.
    #[error("out of memory")]
    OutOfMemory,
    /// Writing to out or err failed.
    #[error("a write failed")]
    WriteFailed,
    /// The log keeps no such interval, or its replay stopped.
    #[error("{0}")]
    ReplayStopped(ReplayError),
    /// No hart of a joint replay is ready, and not all are done. Each that isn't, with its next count.
    #[error("no hart is ready, and not all are done")]
    JointStuck { positions: List<(HartId, Ic)> },
    /// Reading commands failed.
    #[error("a read failed")]
    ReadFailed,
    /// A line of commands has more than 256 bytes.
    #[error("a line of commands is too long")]
    LineTooLong,
    /// The commands have more than 2^24 bytes.
    #[error("the commands are too long")]
    CommandsTooLong,
    /// The list of turns isn't a whole run of the program.
    #[error("{0}")]
    BookRefused(TurnError),
    /// The log isn't the file of the run: they differ first at this byte.
    #[error("the log isn't the file of the run: byte {at_byte}")]
    FileDiffers { at_byte: u64 },
    /// No block of the log is left that could be salvaged.
    #[error("nothing left")]
    NothingLeft,
    /// There are more races than were asked for.
    #[error("more than {most} races")]
    TooManyRaces { most: u64 },
    /// The interval has no row of this count.
    #[error("no row of count {ic}")]
    NoRow { ic: Ic },
}

impl From<AllocError> for Refusal {
    ghost from_gives = { λ _ refusal. refusal ≡ OutOfMemory };

    fn from(_: AllocError) -> Refusal {
        Refusal::OutOfMemory
    }
}

fn replay_status(error: &ReplayError) -> Status
    ensures { code result ≡ replay_status error.now }
{
    match error {
        ReplayError::NoInterval { .. } => Status::NoInterval,
        ReplayError::LoadMissing { .. } => Status::ReplayStopped,
        ReplayError::ScMissing { .. } => Status::ReplayStopped,
        ReplayError::RecordsLeft { .. } => Status::ReplayStopped,
        ReplayError::EndDiffers { .. } => Status::ReplayStopped,
        ReplayError::OutOfMemory => Status::OutOfMemory,
    }
}

impl Refusal {
    /// The refusal of a log file by its damage.
    pub fn of_damage(damage: Damage) -> Refusal
        ensures { result ≡ log_refusal damage }
    {
        match damage {
            Damage::File(FileError::OutOfMemory) => Refusal::OutOfMemory,
            _ => Refusal::LogRefused(damage),
        }
    }

    /// The refusal of a joint replay that stopped.
    pub fn of_joint(error: JointError) -> Refusal
        ensures { result ≡ joint_refusal error }
    {
        match error {
            JointError::Replay(error) => Refusal::ReplayStopped(error),
            JointError::Stuck { positions } => Refusal::JointStuck { positions },
            JointError::OutOfMemory => Refusal::OutOfMemory,
        }
    }

    /// The status that the program ends with.
    pub fn status(&self) -> Status
        ensures { code result ≡ status_of self.now }
    {
        match self {
            Refusal::WordsRefused | Refusal::OutOfRange(_) | Refusal::SameName =>
                Status::WordsRefused,
            Refusal::StoreFailed(_) => Status::StoreFailed,
            Refusal::Missing(_) => Status::Missing,
            Refusal::TooLong(_) => Status::TooLong,
            Refusal::ElfRefused(_) => Status::ElfRefused,
            Refusal::LogRefused(_) => Status::LogRefused,
            Refusal::ProgramDiffers { .. } => Status::ProgramDiffers,
            Refusal::OutOfMemory => Status::OutOfMemory,
            Refusal::WriteFailed => Status::WriteFailed,
            Refusal::ReplayStopped(error) => replay_status(error),
            Refusal::JointStuck { .. } => Status::ReplayStopped,
            Refusal::ReadFailed => Status::ReadFailed,
            Refusal::LineTooLong => Status::CommandsTooLong,
            Refusal::CommandsTooLong => Status::CommandsTooLong,
            Refusal::BookRefused(_) => Status::BookRefused,
            Refusal::FileDiffers { .. } => Status::FileDiffers,
            Refusal::NothingLeft => Status::NothingLeft,
            Refusal::TooManyRaces { .. } => Status::TooManyRaces,
            Refusal::NoRow { .. } => Status::NoRow,
        }
    }
}
