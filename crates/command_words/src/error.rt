//! Why words give no command: they are refused, or out of memory.
ghost use Rattle.std.specs.Prelude.{◌≡◌};
ghost use Rattle.command_words.specs.declared.error.WordsError.TheVariants as words_error;

use std::alloc::AllocError;
use thiserror::Error;

/// Why words give no command.
#[derive(Clone, Copy, Debug, Drop, Error)]
pub enum WordsError {
    /// The words are no command line of this program. Words that ask for help or for the version
    /// are none either.
    #[error("words refused")]
    Refused,
    /// Memory ran out. This may come in place of any answer.
    #[error("out of memory")]
    OutOfMemory,
}

impl From<AllocError> for WordsError {
    ghost from_gives = { λ _ e. e ≡ words_error.OutOfMemory };

    fn from(_error: AllocError) -> WordsError {
        WordsError::OutOfMemory
    }
}
