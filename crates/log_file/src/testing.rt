//! Testing the bytes of a file of version 1, in no memory: they are a log's, or have a first fault.
ghost use Rattle.std.specs.Prelude.{◌≡◌, ◌≢◌, ◌≤◌, length, drop, IfOk, IfErr};
ghost use Rattle.log_file.specs.declared.error.FileError.TheVariants.{OutOfMemory};
ghost use Rattle.log_file.specs.Layout.{settings_in, head_in, dropped_in};
ghost use Rattle.log_file.specs.Faults.{signed_of};
ghost use Rattle.log_file.specs.File.{IsRecordsFault, IsRefusal};
ghost use Rattle.log_file.specs.Counts.{IsCounted, TestsFields, TestsFile};

use crate::counting::{LogCounts, tally_of};
use crate::error::FileError;
use crate::head::{DIGEST_SIZE, HEAD_SIZE, checked_settings, digest_in, tail};
use crate::offsets::DROPPED;
use bn_base::Settings;
use le_numbers::laws::read_numbers_are_written;
use le_numbers::read_u64;
use log_record::Head;

/// What a log's file has: the head, and what is counted of the records.
#[derive(Drop)]
pub struct Tested {
    pub head: Head,
    pub counts: LogCounts,
}

// What is counted of the records with these bytes, of a log that has this head and dropped so many.
fn counted(head: &Head, dropped: u64, bytes: &[u8]) -> Result<LogCounts, FileError>
    ensures counted { IfOk result (IsCounted head.now dropped bytes.now) }
    ensures refused { IfErr result (λ e. IsRecordsFault head.now dropped bytes.now e) }
    ensures memory { IfErr result (λ e. e ≢ OutOfMemory) }
{
    match tally_of(1, &head.settings, dropped, bytes) {
        Err(at) => Err(FileError::BadRecord { at }),
        Ok(tally) => match tally.broken {
            None => Ok(tally.counts),
            Some(found) => Err(FileError::BadOrder {
                at: found.at,
                rule: found.rule,
            }),
        },
    }
}

// What a file has whose head has no fault and these settings.
fn fields_of(signed: &[u8], settings: Settings) -> Result<Tested, FileError>
    requires long { 92 ≤ length signed.now }
    requires settings { settings ≡ settings_in signed.now }
    requires bound { length (drop 92 signed.now) ≤ settings.log_size }
    ensures tested { IfOk result (TestsFields signed.now) }
    ensures refused { IfErr result (λ e. IsRecordsFault (head_in signed.now) (dropped_in signed.now) (drop 92 signed.now) e) }
    ensures memory { IfErr result (λ e. e ≢ OutOfMemory) }
{
    let _range = settings.raw();
    let head = Head {
        settings,
        digest: digest_in(signed),
    };
    let dropped = read_u64(signed, DROPPED);
    match counted(&head, dropped, tail(signed, HEAD_SIZE)) {
        Ok(counts) => Ok(Tested { head, counts }),
        Err(fault) => Err(fault),
    }
}

/// What a file has. The error is the first fault.
pub fn test(bytes: &[u8]) -> Result<Tested, FileError>
    ensures tested { IfOk result (TestsFile bytes.now) }
    ensures refused { IfErr result (λ e. IsRefusal bytes.now e) }
    ensures memory { IfErr result (λ e. e ≢ OutOfMemory) }
{
    read_numbers_are_written();
    let length = bytes.len();
    if length < HEAD_SIZE + DIGEST_SIZE {
        return Err(FileError::Short {
            length: length as u64,
        });
    }
    let (signed, kept) = bytes.split_at(length - DIGEST_SIZE);
    match checked_settings(signed, kept) {
        Ok(settings) => fields_of(signed, settings),
        Err(fault) => Err(fault),
    }
}

/// The bytes of the records of a file.
pub fn records_in(bytes: &[u8]) -> &[u8]
    requires { 124 ≤ length bytes.now }
    ensures { result.now ≡ drop 92 (signed_of bytes.now) }
{
    tail(&bytes[..bytes.len() - DIGEST_SIZE], HEAD_SIZE)
}
