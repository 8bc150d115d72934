//! Which harts wait in the joint replay of a log that was made by hand and lost its first records.
use crate::replaying::{late_log, program};
use bn_base::{HartId, Ic, Image, RawSettings, Settings};
use joint_replay::{Joint, Readiness};
use log_order::KeptLog;
use std::alloc::{AllocError, Global};
use std::test::*;

// Each hart passes a word on: hart 0 stores at count 4; hart 1 loads that word at 3 and stores the next one at 4;
// hart 2 loads both, at 4 and 5.
const RELAY: [u32; 13] = [
    0x00020437, 0x00100393, 0x00750863, 0x00051c63, 0x00b42023, 0x0180006f, 0x00042283, 0x00b42223,
    0x00c0006f, 0x00442283, 0x00042303, 0x05d00893, 0x00000073,
];

// The Header of a hart's interval 1, at count 4: sp, t0, t2, s0, a0 and a1 aren't 0.
fn header(hart: u8, pc: u8, sp: u8, t0: u8) -> [u8; 146] {
    let mut bytes = [0; 146];
    bytes[0] = 1;
    bytes[1] = hart;
    bytes[2] = 1;
    bytes[10] = 4;
    bytes[18] = pc;
    bytes[20] = 1;
    bytes[28] = sp;
    bytes[38] = t0;
    bytes[46] = 1;
    bytes[52] = 2;
    bytes[58] = hart;
    bytes[62] = 3;
    bytes
}

fn first_load(hart: u8) -> [u8; 10] {
    [2, hart, 0, 0, 0, 0, 3, 0, 0, 0]
}

fn edge(hart: u8, ic: u8, from: u8, from_ic: u8) -> [u8; 19] {
    [
        5, hart, ic, 0, 0, 0, 0, 0, 0, 0, from, from_ic, 0, 0, 0, 0, 0, 0, 0,
    ]
}

// An End of reason length at count 4, or of an exit by the hart's number at count 8.
fn end(hart: u8, ic: u8) -> [u8; 15] {
    let (reason, value) = if ic == 4 { (1, 0) } else { (3, hart) };
    [6, hart, ic, 0, 0, 0, 0, 0, 0, 0, reason, value, 0, 0, 0]
}

// The log of the relay in intervals of 4 instructions, in turns 0 2 0 1 1 2 2 0 1 2. The first Headers and hart 0's
// first End were given up.
fn kept(alloc: Global, settings: Settings) -> Result<Option<KeptLog>, AllocError> {
    let (load, last) = (first_load(2), end(2, 8));
    let parts: [&[u8]; 13] = [
        &header(0, 0x64, 0x10, 0),
        &end(2, 4),
        &header(2, 0x78, 0x0e, 0),
        &edge(1, 3, 0, 4),
        &first_load(1),
        &end(1, 4),
        &header(1, 0x70, 0x0f, 3),
        &edge(2, 4, 1, 4),
        &load,
        &load,
        &end(0, 8),
        &end(1, 8),
        &last,
    ];
    late_log(alloc, settings, 4, &parts)
}

// What a hart waits for; none if it is ready, and itself if it is neither.
fn source(joint: &Joint, hart: HartId) -> Option<(HartId, Ic)> {
    if hart >= joint.harts() {
        return Some((hart, 0));
    }
    match joint.ready(hart) {
        Readiness::Ready => None,
        Readiness::Waits { hart, ic } => Some((hart, ic)),
        Readiness::Done => Some((hart, 1)),
    }
}

// What the first three harts of a joint replay wait for.
fn sources(alloc: Global, image: &Image, log: &KeptLog) -> [Option<(HartId, Ic)>; 3] {
    match Joint::begin(alloc, image, log) {
        Ok(joint) => [source(&joint, 0), source(&joint, 1), source(&joint, 2)],
        Err(_) => [Some((9, 0)); 3],
    }
}

// The same of the relay.
fn relay_sources(alloc: Global) -> Result<[Option<(HartId, Ic)>; 3], AllocError> {
    let raw = RawSettings {
        harts: 3,
        interval: 4,
        ..RawSettings::default()
    };
    let image = program(alloc, &RELAY)?;
    match Settings::checked(&raw) {
        Ok(settings) => match kept(alloc, settings)? {
            Some(log) => Ok(sources(alloc, &image, &log)),
            None => Ok([Some((9, 1)); 3]),
        },
        Err(_) => Ok([Some((9, 2)); 3]),
    }
}

// Hart 1 has lost the interval of its load, and so waits for hart 0's store as if it still had to load.
#[test]
fn harts_wait_for_the_sources_of_edges(rt: HostRuntime) -> Result<(), AllocError> {
    let found = relay_sources(rt.alloc())?;
    assert!(rt; found == [None, Some((0, 4)), Some((1, 4))]);
    Ok(())
}
