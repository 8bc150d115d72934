//! Each error with its text.
use bn_base::{BadSetting, EndMark};
use hart_replay::ReplayError;
use log_blocks::{Damage, SalvageError};
use log_file::FileError;
use std::alloc::{AllocError, Global};
use std::fmt;
use std::test::*;

// Whether a value's text is this one.
fn says<T: fmt::Display>(alloc: Global, value: &T, text: &str) -> Result<bool, AllocError> {
    let said = format!(in alloc; "{value}")?;
    Ok(said.as_str() == text)
}

// The place of the first value whose text isn't the one beside it.
fn wrong<T: fmt::Display>(alloc: Global, cases: &[(T, &str)]) -> Result<Option<usize>, AllocError> {
    for (at, case) in cases.iter().enumerate() {
        if !says(alloc, &case.0, case.1)? {
            return Ok(Some(at));
        }
    }
    Ok(None)
}

const DAMAGES: [(Damage, &str); 2] = [
    (
        Damage::BadBlock { at: 7 },
        "the block that ends at 7 is bad",
    ),
    (Damage::File(FileError::BadMagic), "not a log"),
];

const SALVAGES: [(SalvageError, &str); 1] = [(SalvageError::NothingLeft, "nothing left")];

#[test]
fn damages_say_what_is_wrong(rt: HostRuntime) -> Result<(), AllocError> {
    let damages = wrong(rt.alloc(), &DAMAGES)?;
    let salvages = wrong(rt.alloc(), &SALVAGES)?;
    assert_eq!(rt; (damages, salvages), (None, None));
    Ok(())
}

const FILES: [(FileError, &str); 9] = [
    (
        FileError::Short { length: 7 },
        "7 bytes are too short for a log",
    ),
    (FileError::BadMagic, "not a log"),
    (FileError::BadVersion { found: 7 }, "version 7 is not known"),
    (
        FileError::BadHead { field: 3, value: 7 },
        "field 3 of the head is out of range: 7",
    ),
    (
        FileError::LengthDiffers { said: 3, found: 7 },
        "the head says 3 bytes of records, and there are 7",
    ),
    (
        FileError::DigestDiffers {
            kept: [3; 32],
            found: [7; 32],
        },
        "the digest differs",
    ),
    (FileError::BadRecord { at: 7 }, "no record at 7"),
    (
        FileError::BadOrder { at: 7, rule: 3 },
        "order broken at 7, rule 3",
    ),
    (FileError::OutOfMemory, "out of memory"),
];

#[test]
fn refused_files_say_what_is_wrong(rt: HostRuntime) -> Result<(), AllocError> {
    let found = wrong(rt.alloc(), &FILES)?;
    assert_eq!(rt; found, None);
    Ok(())
}

const REPLAYS: [(ReplayError, &str); 6] = [
    (
        ReplayError::NoInterval {
            hart: 3,
            interval: 7,
        },
        "no interval 7 of hart 3",
    ),
    (
        ReplayError::LoadMissing {
            hart: 3,
            ic: 7,
            addr: 0x10056,
        },
        "hart 3 at 7: no word for address 00010056",
    ),
    (
        ReplayError::ScMissing { hart: 3, ic: 7 },
        "hart 3 at 7: no record of a store-conditional",
    ),
    (
        ReplayError::RecordsLeft { hart: 3, left: 7 },
        "hart 3: 7 records left",
    ),
    (
        ReplayError::EndDiffers {
            hart: 3,
            said: EndMark {
                ic: 7,
                reason: 1,
                value: 0,
            },
            found: EndMark {
                ic: 8,
                reason: 2,
                value: 9,
            },
        },
        "hart 3: another end",
    ),
    (ReplayError::OutOfMemory, "out of memory"),
];

#[test]
fn stopped_replays_say_what_is_wrong(rt: HostRuntime) -> Result<(), AllocError> {
    let found = wrong(rt.alloc(), &REPLAYS)?;
    assert_eq!(rt; found, None);
    Ok(())
}

const SETTINGS: [(BadSetting, &str); 1] = [(
    BadSetting { field: 3, value: 7 },
    "setting 3 is out of range: 7",
)];

#[test]
fn settings_out_of_range_say_which(rt: HostRuntime) -> Result<(), AllocError> {
    let found = wrong(rt.alloc(), &SETTINGS)?;
    assert_eq!(rt; found, None);
    Ok(())
}
