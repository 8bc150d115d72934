//! Ways back in the joint replay of a log that was made by hand.
use crate::replaying::{end, header, log, program};
use back_step::{Entry, Trail};
use bn_base::Image;
use joint_replay::Readiness;
use log_order::KeptLog;
use std::alloc::{AllocError, Global};
use std::test::*;

// addi a0,zero,5; addi a7,zero,93; ecall
const EXIT: [u32; 3] = [0x00500513, 0x05d00893, 0x00000073];

// A step of hart 0, if it is ready.
fn step(trail: &mut Trail) {
    if trail.joint().harts() > 0 {
        if let Readiness::Ready = trail.joint().ready(0) {
            match trail.step(0) {
                Ok(_) => (),
                Err(_) => (),
            }
        }
    }
}

// How many steps a way back took again; none if there is no such way.
fn seek(trail: &mut Trail, to: u64) -> Option<u64> {
    if to <= trail.position() {
        match trail.seek(to) {
            Ok(count) => Some(count),
            Err(_) => None,
        }
    } else {
        None
    }
}

// Three steps, and ways back to 1 and to 0: the entry of the second step, how many steps were taken
// again, and the position then.
fn went(trail: &mut Trail) -> (Option<Entry>, Option<u64>, Option<u64>, u64) {
    step(trail);
    step(trail);
    step(trail);
    let entry = trail.entry(1);
    let first = seek(trail, 1);
    let second = seek(trail, 0);
    (entry, first, second, trail.position())
}

// The same in the joint replay of a log, with a copy at each second position.
fn went_in(
    alloc: Global,
    image: &Image,
    kept: &KeptLog,
) -> (Option<Entry>, Option<u64>, Option<u64>, u64) {
    match Trail::begin(alloc, image, kept, 2) {
        Ok(mut trail) => went(&mut trail),
        Err(_) => (None, None, None, 9),
    }
}

// The same of the log that was made by hand.
fn first_went(alloc: Global) -> Result<(Option<Entry>, Option<u64>, Option<u64>, u64), AllocError> {
    let image = program(alloc, &EXIT)?;
    match log(alloc, &[&header(0, 0, 0x54), &end(3, 3, 5)])? {
        Some(kept) => Ok(went_in(alloc, &image, &kept)),
        None => Ok((None, None, None, 8)),
    }
}

#[test]
fn a_way_back_takes_the_steps_from_a_copy_again(rt: HostRuntime) -> Result<(), AllocError> {
    let told = first_went(rt.alloc())?;
    let entry = Entry {
        hart: 0,
        ic: 1,
        pc: Some(0x10058),
    };
    assert!(rt; told == (Some(entry), Some(1), Some(0), 0));
    Ok(())
}
