//! Why a file is refused, with the texts that users see.
ghost use Rattle.std.specs.Prelude.{◌≡◌};
ghost use Rattle.elf_loader.specs.declared.error.ElfError.TheVariants.{OutOfMemory};

use bn_base::Addr;
use std::alloc::AllocError;
use thiserror::Error;

/// Why a file is refused. Segments are named by their place in the program header table.
#[derive(Clone, Copy, Debug, Drop, Error)]
pub enum ElfError {
    /// The file doesn't begin with the magic number.
    #[error("not an ELF file")]
    NotElf,
    /// What should end at byte `at` of the file passes its length.
    #[error("cut off: {at} bytes are needed, and the file has {length}")]
    Truncated { at: u64, length: u64 },
    /// The file isn't 32-bit little-endian ELF of version 1 for RISC-V.
    #[error("not a 32-bit little-endian RISC-V file")]
    NotRv32,
    /// The file isn't an executable at fixed addresses, or asks for a program interpreter.
    #[error("not a static executable")]
    NotStatic,
    /// The program has compressed instructions.
    #[error("compressed instructions aren't supported")]
    NeedsCompressed,
    /// The program is for RV32E, with 16 registers.
    #[error("the RV32E registers aren't supported")]
    NeedsE,
    /// The file has more than 64 program headers.
    #[error("too many program headers: {count}")]
    TooMany { count: u64 },
    /// A segment isn't within the mapped addresses, or has more bytes in the file than in memory.
    #[error("segment {segment} is outside memory")]
    Outside { segment: u64 },
    /// Two segments share an aligned word.
    #[error("segments {first} and {second} touch")]
    SegmentsTouch { first: u64, second: u64 },
    /// The file has no segment.
    #[error("no segment")]
    NoSegment,
    /// The first instruction isn't a code word.
    #[error("the entry {entry:08x} is no code")]
    EntryOutside { entry: Addr },
    /// Memory ran out. It comes only in place of a program, and of no other error.
    #[error("out of memory")]
    OutOfMemory,
}

impl From<AllocError> for ElfError {
    ghost from_gives = { λ _ e. e ≡ OutOfMemory };

    fn from(_error: AllocError) -> ElfError {
        ElfError::OutOfMemory
    }
}
