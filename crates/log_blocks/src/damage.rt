//! Why a file is refused, of either version, and why nothing is salvaged of one.
ghost use Rattle.std.specs.Prelude.{◌≡◌};
ghost use Rattle.log_file.specs.declared.error.FileError.TheVariants.{OutOfMemory};
ghost use Rattle.log_blocks.specs.declared.damage.Damage.TheVariants.{File};
ghost use Rattle.log_blocks.specs.declared.damage.SalvageError.TheVariants as salvage;

use log_file::FileError;
use std::alloc::{AllocError, AllocFailed};
use thiserror::Error;

/// Why bytes are no log file.
#[derive(Clone, Copy, Debug, PartialEq, Eq, Drop, Error)]
pub enum Damage {
    /// What a file of either version can be refused for.
    #[error("{0}")]
    File(FileError),
    /// In version 2 alone: the block that ends at this place of the file is bad.
    #[error("the block that ends at {at} is bad")]
    BadBlock { at: u64 },
}

impl From<AllocError> for Damage {
    ghost from_gives = { λ _ e. e ≡ File OutOfMemory };

    fn from(_e: AllocError) -> Damage {
        Damage::File(FileError::OutOfMemory)
    }
}

impl<T: Drop> From<AllocFailed<T>> for Damage {
    ghost from_gives = { λ _ e. e ≡ File OutOfMemory };

    fn from(_e: AllocFailed<T>) -> Damage {
        Damage::File(FileError::OutOfMemory)
    }
}

impl From<AllocError> for SalvageError {
    ghost from_gives = { λ _ e. e ≡ salvage.OutOfMemory };

    fn from(_e: AllocError) -> SalvageError {
        SalvageError::OutOfMemory
    }
}

/// Why nothing is salvaged of a file.
#[derive(Clone, Copy, Debug, Drop, Error)]
pub enum SalvageError {
    /// The head, or the records of the last good blocks, are refused.
    #[error("{0}")]
    File(Damage),
    /// There should be records, and the last block is bad.
    #[error("nothing left")]
    NothingLeft,
    /// Memory ran out.
    #[error("out of memory")]
    OutOfMemory,
}
