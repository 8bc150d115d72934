//! A log file that was made by hand: it is read and written, and each cut or longer one is refused by name.
use crate::first_log::first_log;
use bn_base::{EndMark, RawSettings};
use log_file::{FileError, count_file, read_file, write_file};
use log_order::KeptLog;
use log_record::Record;
use std::alloc::{AllocError, Global};
use std::test::*;

// Why bytes are refused, if reading and counting refuse them alike.
fn refusal(alloc: Global, bytes: &[u8]) -> Option<FileError> {
    let found = read_file(alloc, bytes).err();
    if count_file(bytes).err() == found {
        found
    } else {
        Some(FileError::OutOfMemory)
    }
}

// The last of a log's records, if it has two.
fn second(log: &KeptLog) -> Option<Record> {
    if log.records().len() == 2 {
        Some(log.records().get(1))
    } else {
        None
    }
}

// Whether the file of a log with these records, in two pieces and none dropped, has these bytes.
fn is_written(
    alloc: Global,
    log: &KeptLog,
    front: &[u8],
    back: &[u8],
    bytes: &[u8],
) -> Result<bool, AllocError> {
    let head = log.head();
    if head.settings.format() != 1 || front.len() + back.len() > head.settings.log_size() as usize {
        return Ok(false);
    }
    let file = write_file(alloc, head, 0, front, back)?;
    Ok(file.as_slice() == bytes)
}

// Whether a log says what the one that was made by hand says.
fn is_first(log: &KeptLog) -> bool {
    let mark = EndMark {
        ic: 3,
        reason: 3,
        value: 5,
    };
    log.dropped() == 0
        && log.head().settings.raw() == RawSettings::default()
        && second(log) == Some(Record::End { hart: 0, mark })
}

// Whether the bytes of a file are those of the log that was made by hand, and are written again.
fn is_read_and_written(alloc: Global, bytes: &[u8; 285]) -> Result<bool, AllocError> {
    match read_file(alloc, bytes) {
        Ok(log) => {
            let again = is_written(alloc, &log, &bytes[92..238], &bytes[238..253], bytes)?;
            Ok(is_first(&log) && again)
        }
        Err(_) => Ok(false),
    }
}

#[test]
fn a_file_is_read_and_written(rt: HostRuntime) -> Result<(), AllocError> {
    let well = is_read_and_written(rt.alloc(), &first_log())?;
    assert!(rt; well);
    Ok(())
}

// Why a file of so many bytes is refused, of which the first 285 are that log's.
fn refusal_at(length: u64) -> FileError {
    if length < 124 {
        FileError::Short { length }
    } else {
        FileError::LengthDiffers {
            said: 161,
            found: length - 124,
        }
    }
}

#[test]
fn cut_files_are_named(rt: HostRuntime) {
    let bytes = first_log();
    for length in 0..285 {
        let found = refusal(rt.alloc(), &bytes[..length]);
        assert!(rt;
            found == Some(refusal_at(length as u64)),
            "of {length} bytes"
        );
    }
}

#[test]
fn a_longer_file_is_named(rt: HostRuntime) {
    let mut longer = [0; 286];
    longer[..285].copy_from_slice(&first_log());
    assert!(rt; refusal(rt.alloc(), &longer) == Some(refusal_at(286)));
}
