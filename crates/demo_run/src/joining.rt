//! The joint replay of a demonstration, and the words that are known after it.
ghost use Rattle.std.specs.Prelude.{◌≡◌, None, IfOk, OnOk};
ghost use Rattle.std.specs.List.{flat_map};
ghost use Rattle.joint_replay.specs.Joining.{fresh, run_all};
ghost use Rattle.demo_run.specs.Demonstration.{word_bytes};
ghost use Rattle.demo_run.specs.Starts.{GoesThrough};

use bn_base::Image;
use joint_replay::laws::{runs_end, runs_go_on};
use joint_replay::{Joint, JointError};
use le_numbers::push_u32;
use log_order::KeptLog;
use rv_text::{RowLines, Text};
use std::alloc::{AllocError, Global};

// Takes all steps of a joint replay, each of the lowest hart that is ready, and drops their lines.
fn go_through(alloc: Global, joint: &mut Joint) -> Result<(), AllocError>
    requires { (run_all joint.old).stopped ≡ None }
    ensures { OnOk result ((run_all joint.old).walk.now ≡ joint.new) }
{
    runs_go_on();
    runs_end();
    let mut lines = RowLines::new(alloc);
    let mut line = Text::new(alloc);
    'steps: loop {
        match joint.advance(&mut lines, &mut line) {
            Ok(true) => line.clear(),
            Ok(false) => return Ok(()),
            Err(JointError::OutOfMemory) => return Err(AllocError),
            Err(_) => unreachable!(),
        }
    }
}

// The bytes of the known words, by ascending address, each after its address.
fn known_bytes(alloc: Global, joint: &Joint) -> Result<Vec<u8>, AllocError>
    ensures { IfOk result (λ bytes. bytes.items ≡ flat_map word_bytes joint.now.memory) }
{
    let mut bytes = Vec::new(alloc);
    let mut from: u64 = 0;
    'words: loop {
        match joint.known_from(from) {
            None => return Ok(bytes),
            Some((addr, word)) => {
                push_u32(&mut bytes, addr)?;
                push_u32(&mut bytes, word)?;
                from = u64::from(addr) + 4;
            }
        }
    }
}

// The bytes of the words that are known after all steps.
fn known_after(alloc: Global, joint: &mut Joint) -> Result<Vec<u8>, AllocError>
    requires { (run_all joint.old).stopped ≡ None }
    ensures { IfOk result (λ bytes. bytes.items ≡ flat_map word_bytes (run_all joint.old).walk.now.memory) }
{
    go_through(alloc, joint)?;
    known_bytes(alloc, joint)
}

/// Replays all intervals of a log together, and gives the words that are known then by ascending address,
/// each after its address. The only error is out of memory.
pub fn join(alloc: Global, image: &Image, log: &KeptLog) -> Result<Vec<u8>, AllocError>
    requires { GoesThrough image.now log.now }
    ensures { IfOk result (λ bytes. bytes.items ≡ flat_map word_bytes (run_all (fresh image.now log.now.head.settings.harts log.now.records)).walk.now.memory) }
{
    match Joint::begin(alloc, image, log) {
        Err(_) => Err(AllocError),
        Ok(mut joint) => known_after(alloc, &mut joint),
    }
}
