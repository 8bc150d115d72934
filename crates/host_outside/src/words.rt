//! The words of the command line, as the system passes them.
ghost use Rattle.std.specs.Prelude.{◌≡◌, [], IfOk, IfErr, OnErr};
ghost use Rattle.std.specs.IoError.{error_kind};
ghost use Rattle.std.specs.declared.io.ErrorKind.TheVariants.{OutOfMemory};

use std::alloc::{AllocError, Global};
use std::env::{Args, Env};
use std::io::ErrorKind;
use std::{env, io};

// The words that the system gives. If it gives an error, there are none, but out of memory stays out of memory.
fn words_given(alloc: Global, given: io::Result<Args>) -> Result<Vec<String>, AllocError>
    ensures none { IfErr given (λ e. IfOk result (λ words. words.items ≡ [])) }
    ensures memory { OnErr result (IfErr given (λ e. error_kind e ≡ OutOfMemory)) }
{
    match given {
        Ok(words) => words.collect(alloc),
        Err(error) => match error.kind() {
            ErrorKind::OutOfMemory => Err(AllocError),
            _ => Ok(Vec::new(alloc)),
        },
    }
}

/// The words of the command line, the program's name first.
///
/// If one of them is not UTF-8, they are no words at all, and so no command.
pub fn words_of<R: Env + AllocGlobal>(rt: &R) -> Result<Vec<String>, AllocError> {
    words_given(rt.alloc(), env::args(rt))
}
