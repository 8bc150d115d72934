//! Reading a file of version 1: the log that it says, or what is counted of it, or the first cause to refuse it.
ghost use Rattle.std.specs.Prelude.{◌≡◌, ◌≢◌, Ok, MatchResult, IfOk, IfErr};
ghost use Rattle.log_order.specs.Content.{Content};
ghost use Rattle.log_file.specs.declared.error.FileError.TheVariants.{OutOfMemory};
ghost use Rattle.log_file.specs.Layout.{file_bytes, IsVersion1};
ghost use Rattle.log_file.specs.File.{IsRefusal};
ghost use Rattle.log_file.specs.Counts.{counts_of, CountsFile};

use crate::counting::LogCounts;
use crate::error::FileError;
use crate::laws::{files_say_one_thing, logs_are_not_refused};
use crate::splitting::list;
use crate::testing::{records_in, test};
use log_order::KeptLog;
use std::alloc::Global;

fn read(alloc: Global, bytes: &[u8]) -> Result<KeptLog, FileError>
    ensures content { IfOk result (λ c. IsVersion1 c) }
    ensures found { IfOk result (λ c. bytes.now ≡ file_bytes c) }
    ensures refused { IfErr result (λ e. IsRefusal bytes.now e) }
{
    let tested = test(bytes)?;
    let log = list(alloc, tested.head, tested.counts, records_in(bytes))?;
    Ok(log)
}

/// What a log file says. The error is the first that applies, in the order of `FileError`: so out of memory
/// comes only of a log's file.
pub fn read_file(alloc: Global, bytes: &[u8]) -> Result<KeptLog, FileError>
    // A log that is read is one that version 1 has, and the bytes are its spelling.
    ensures content { IfOk result (λ c. IsVersion1 c) }
    ensures found { IfOk result (λ c. bytes.now ≡ file_bytes c) }
    // A log whose spelling the bytes are is read.
    ensures only { (d : Content) → IsVersion1 d → bytes.now ≡ file_bytes d → MatchResult result (λ c. c ≡ d) (λ e. e ≡ OutOfMemory) }
    ensures refused { IfErr result (λ e. IsRefusal bytes.now e) }
{
    files_say_one_thing();
    logs_are_not_refused();
    read(alloc, bytes)
}

/// What is counted of the log that a file says, without a list of its records: it takes no memory.
/// A file is refused as `read_file` refuses it, but never as out of memory.
pub fn count_file(bytes: &[u8]) -> Result<LogCounts, FileError>
    // The counts are those of a log, and the bytes are its spelling.
    ensures counted { IfOk result (CountsFile bytes.now) }
    // A log whose spelling the bytes are is counted.
    ensures only { (c : Content) → IsVersion1 c → bytes.now ≡ file_bytes c → result ≡ Ok (counts_of c) }
    ensures refused { IfErr result (λ e. IsRefusal bytes.now e) }
    ensures memory { IfErr result (λ e. e ≢ OutOfMemory) }
{
    files_say_one_thing();
    logs_are_not_refused();
    match test(bytes) {
        Ok(tested) => Ok(tested.counts),
        Err(fault) => Err(fault),
    }
}
