//! Why a file of version 1 is refused. The order of the variants is the order of the tests.
ghost use Rattle.std.specs.Prelude.{◌≡◌};
ghost use Rattle.log_file.specs.declared.error.FileError.TheVariants.{OutOfMemory};

use std::alloc::{AllocError, AllocFailed};
use thiserror::Error;

/// Why bytes are no log file: the first of these that applies, in this order. `OutOfMemory` comes only
/// of bytes that are one.
#[derive(Clone, Copy, Debug, PartialEq, Eq, Drop, Error)]
pub enum FileError {
    /// There are fewer than 124 bytes, the size of a file without records.
    #[error("{length} bytes are too short for a log")]
    Short { length: u64 },
    /// The first eight bytes aren't `BUGNETLG`.
    #[error("not a log")]
    BadMagic,
    /// The version isn't 1.
    #[error("version {found} is not known")]
    BadVersion { found: u64 },
    /// The first setting that is out of range, by its number from 1 to 8. Field 9 is the number of the
    /// records' bytes, if it passes the log size.
    #[error("field {field} of the head is out of range: {value}")]
    BadHead { field: u64, value: u64 },
    /// The records have another number of bytes than the head says.
    #[error("the head says {said} bytes of records, and there are {found}")]
    LengthDiffers { said: u64, found: u64 },
    /// The file's last 32 bytes aren't the SHA-256 digest of all bytes before.
    #[error("the digest differs")]
    DigestDiffers { kept: [u8; 32], found: [u8; 32] },
    /// The place at which a record should begin and none does, in bytes from the first record.
    #[error("no record at {at}")]
    BadRecord { at: u64 },
    /// The first break of the order of records, in bytes from the first record, and its rule.
    #[error("order broken at {at}, rule {rule}")]
    BadOrder { at: u64, rule: u64 },
    /// Memory ran out.
    #[error("out of memory")]
    OutOfMemory,
}

impl From<AllocError> for FileError {
    ghost from_gives = { λ _ e. e ≡ OutOfMemory };

    fn from(_e: AllocError) -> FileError {
        FileError::OutOfMemory
    }
}

impl<T: Drop> From<AllocFailed<T>> for FileError {
    ghost from_gives = { λ _ e. e ≡ OutOfMemory };

    fn from(_e: AllocFailed<T>) -> FileError {
        FileError::OutOfMemory
    }
}
