//! Stores of named files: the trait by which the program loads and saves. Contracts speak of files by it alone.
ghost use Rattle.std.specs.Prelude.{◌≡◌, ◌≤◌, ℕ, Option, IfOk, IfSome, OnOk, Some, vec_len};
ghost use Rattle.bn_outside.specs.Counts.{counted, NoneFell, LoadCause, SaveCause};
ghost use Rattle.bn_outside.specs.Files.{LoadTells, SameElsewhere, Stored, WhereTold};
ghost use Rattle.bn_outside.specs.StoreCalls.{StoreCall, LoadCall, SaveCall};
ghost use Rattle.bn_outside.specs.declared.store.LoadError.TheVariants as load;
ghost use Rattle.bn_outside.specs.declared.store.SaveError.TheVariants as save;

use std::alloc::{AllocError, Global};
use thiserror::Error;

/// Why a load gave no bytes.
#[derive(Clone, Copy, Debug, Drop, PartialEq, Eq, Error)]
pub enum LoadError {
    /// The store has nothing under the name.
    #[error("no such name in the store")]
    Missing,
    /// The name has more bytes than the limit.
    #[error("more bytes than the limit")]
    TooLong,
    /// The store failed.
    #[error("the store failed")]
    Failed,
    /// There was no memory for the bytes.
    #[error("out of memory")]
    OutOfMemory,
}

/// Why bytes were not saved.
#[derive(Clone, Copy, Debug, Drop, PartialEq, Eq, Error)]
pub enum SaveError {
    /// The store failed.
    #[error("the store failed")]
    Failed,
    /// The store had no memory for the bytes.
    #[error("out of memory")]
    OutOfMemory,
}

impl From<AllocError> for LoadError {
    ghost from_gives = { λ _ error. error ≡ load.OutOfMemory };

    fn from(_: AllocError) -> LoadError {
        LoadError::OutOfMemory
    }
}

impl From<AllocError> for SaveError {
    ghost from_gives = { λ _ error. error ≡ save.OutOfMemory };

    fn from(_: AllocError) -> SaveError {
        SaveError::OutOfMemory
    }
}

/// Files by their names.
pub trait Store {
    /// What is known of it: the bytes under each name, if contracts can name them, and how many saves it was asked for. It
    /// counts how often a name was missing or had too many bytes, and how often a call failed. And it notes its calls.
    ghost stored: { Self → Stored };

    /// What it notes after one more call. What that is, is its own affair. Code that is proved for every store knows nothing
    /// of it but that each call is noted once. So if its contract says what is noted after some calls, it makes these calls,
    /// in this order, and no other.
    ghost note: { ℕ → StoreCall → ℕ };

    /// The bytes under `name`, if they are at most `limit`.
    ///
    /// Whatever the answer, the files are unchanged. If contracts can name the store's files,
    /// `Missing` and `TooLong` are the truth about the name, and out of memory comes only for bytes
    /// that are there and fit the limit. Each other refusal comes only in a call that counted it.
    fn load(&mut self, alloc: Global, name: &str, limit: usize) -> Result<Vec<u8>, LoadError>
        ensures bound { IfOk result (λ bytes. vec_len bytes ≤ limit) }
        ensures told { IfSome (stored self.old).files (λ known. LoadTells (known name.now) limit result) }
        ensures unchanged { (stored self.new).files ≡ (stored self.old).files }
        ensures asked { (stored self.new).saves ≡ (stored self.old).saves }
        ensures called { (stored self.new).noted ≡ note (stored self.old).noted (LoadCall name.now limit) }
        ensures later { NoneFell (stored self.old).counts (stored self.new).counts }
        ensures cause { LoadCause (stored self.old).counts (stored self.new).counts result };

    /// Gives `name` these bytes, in place of what it had.
    ///
    /// After a refusal nothing is known of what the name has. All other names have what they had,
    /// whatever the answer. `Failed` comes only in a call that counted it. Each call is a save that the
    /// store was asked for.
    fn save(&mut self, name: &str, bytes: &[u8]) -> Result<(), SaveError>
        ensures saved { OnOk result (WhereTold (stored self.old).files (stored self.new).files
            (λ _ new. new name.now ≡ Some bytes.now)) }
        ensures others { WhereTold (stored self.old).files (stored self.new).files (SameElsewhere name.now) }
        ensures asked { (stored self.new).saves ≡ counted (stored self.old).saves }
        ensures called { (stored self.new).noted ≡ note (stored self.old).noted (SaveCall name.now bytes.now) }
        ensures later { NoneFell (stored self.old).counts (stored self.new).counts }
        ensures cause { SaveCause (stored self.old).counts (stored self.new).counts result };
}
