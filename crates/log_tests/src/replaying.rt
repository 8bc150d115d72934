//! Logs that were made by hand, from the bytes of their files, and the state in the replay of one.
use bn_base::{Addr, Ic, Image, Register, Segment, Settings};
use hart_replay::Replayer;
use log_file::{read_file, write_file};
use log_order::KeptLog;
use log_record::Head;
use std::alloc::{AllocError, Global};
use std::test::*;

// addi a0,zero,5; addi a7,zero,93; ecall
const EXIT: [u32; 3] = [0x00500513, 0x05d00893, 0x00000073];

// The program of these words, from 00010054 on.
pub(crate) fn program(alloc: Global, code: &[u32]) -> Result<Image, AllocError> {
    let mut words = Vec::new(alloc);
    words.extend_from_slice(code)?;
    let count = if code.len() < 100 {
        code.len() as u32
    } else {
        100
    };
    words.truncate(100);
    let segment = Segment::new(0x10054, words, count, true, false);
    Ok(Image::new(vec![in alloc; segment]?, 0x10054, &Settings::default()))
}

// The Header of hart 0 at the program's start: a1 is 1, sp the end of memory.
pub(crate) fn header(interval: u8, ic: u8, pc: u8) -> [u8; 146] {
    let mut bytes = [0; 146];
    bytes[0] = 1;
    bytes[2] = interval;
    bytes[10] = ic;
    bytes[18] = pc;
    bytes[20] = 1;
    bytes[28] = 0x10;
    bytes[62] = 1;
    bytes
}

pub(crate) fn end(ic: u8, reason: u8, value: u8) -> [u8; 15] {
    [6, 0, ic, 0, 0, 0, 0, 0, 0, 0, reason, value, 0, 0, 0]
}

// The parts of bytes, one after another.
fn joined(alloc: Global, parts: &[&[u8]]) -> Result<Vec<u8>, AllocError> {
    let mut bytes = Vec::new(alloc);
    for part in parts {
        bytes.extend_from_slice(part)?;
    }
    Ok(bytes)
}

// The file of a log with these records; no bytes if a log has no room for them.
fn file_of(
    alloc: Global,
    settings: Settings,
    dropped: u64,
    records: &[u8],
) -> Result<Vec<u8>, AllocError> {
    let head = Head {
        settings,
        digest: [7; 32],
    };
    if head.settings.format() == 1 && records.len() <= head.settings.log_size() as usize {
        write_file(alloc, &head, dropped, records, &[])
    } else {
        Ok(Vec::new(alloc))
    }
}

// The log of these records with some dropped before them, written to a file and read back.
pub(crate) fn late_log(
    alloc: Global,
    settings: Settings,
    dropped: u64,
    parts: &[&[u8]],
) -> Result<Option<KeptLog>, AllocError> {
    let records = joined(alloc, parts)?;
    let file = file_of(alloc, settings, dropped, &records)?;
    Ok(read_file(alloc, &file).ok())
}

// The log of these records with none dropped, by default settings.
pub(crate) fn log(alloc: Global, parts: &[&[u8]]) -> Result<Option<KeptLog>, AllocError> {
    late_log(alloc, Settings::default(), 0, parts)
}

// The pc at the start of interval 0 of hart 0; and after its first row the pc, the count and a0.
fn states(alloc: Global, image: &Image, kept: &KeptLog) -> Option<(Addr, Addr, Ic, u32)> {
    match Replayer::begin(alloc, image, kept, 0, 0) {
        Ok(mut replayer) => {
            let start = replayer.state().pc;
            let _row = replayer.step();
            let state = replayer.state();
            Some((start, state.pc, state.ic, state.x.get(Register::new(10))))
        }
        Err(_) => None,
    }
}

// These of the log that was made by hand.
fn first_states(alloc: Global) -> Result<Option<(Addr, Addr, Ic, u32)>, AllocError> {
    let image = program(alloc, &EXIT)?;
    match log(alloc, &[&header(0, 0, 0x54), &end(3, 3, 5)])? {
        Some(kept) => Ok(states(alloc, &image, &kept)),
        None => Ok(None),
    }
}

#[test]
fn the_state_is_that_after_the_rows(rt: HostRuntime) -> Result<(), AllocError> {
    let found = first_states(rt.alloc())?;
    assert!(rt; found == Some((0x10054, 0x10058, 1, 5)));
    Ok(())
}
