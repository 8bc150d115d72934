//! Steps that are taken again, and the copies that they are taken from.
ghost use Rattle.std.specs.Prelude.{◌≡◌, ◌<◌, ◌/◌, ◌%◌, ◌==◌, ◌&&◌, ◌∷◌, ◌++◌, [], vec_len, vec_capacity, OnOk, OnErr, IfOk};
ghost use Rattle.back_step.specs.Trails.{CanTake, CanStep, Took, LeadsBy, with_copy};

use crate::entry::Entry;
use bn_base::HartId;
use joint_replay::Joint;
use std::alloc::AllocError;

/// Whether a copy is to be made at a position, after so many were made.
pub(crate) fn is_due(every: u64, position: u64, copies: u64) -> bool
    requires { 0 < every }
    ensures { result ≡ (position % every == 0 && (position / every == copies)) }
{
    position % every == 0 && position / every == copies
}

// Appends a copy.
fn push_copy<'a>(joint: &Joint<'a>, copies: &mut Vec<Joint<'a>>) -> Result<(), AllocError>
    ensures ok { OnOk result (copies.new.items ≡ copies.old.items ++ joint.now ∷ []) }
    ensures err { OnErr result (copies.new.items ≡ copies.old.items) }
{
    copies.reserve(1)?;
    match joint.copy() {
        Err(error) => Err(error),
        Ok(copy) => {
            copies.push_reserved(copy);
            Ok(())
        }
    }
}

/// Appends a copy, if one is due.
pub(crate) fn keep_copy<'a>(
    joint: &Joint<'a>,
    copies: &mut Vec<Joint<'a>>,
    due: bool,
) -> Result<(), AllocError>
    ensures ok { OnOk result (copies.new.items ≡ with_copy due joint.now copies.old.items) }
    ensures err { OnErr result (copies.new.items ≡ copies.old.items) }
{
    if due {
        push_copy(joint, copies)
    } else {
        Ok(())
    }
}

/// Appends an entry, if there is room for it.
pub(crate) fn put(entries: &mut Vec<Entry>, entry: Entry)
    requires { vec_len entries.old < vec_capacity entries.old }
    ensures { entries.new.items ≡ entries.old.items ++ entry ∷ [] }
{
    match entries.push(entry) {
        Ok(()) => (),
        Err(_) => unreachable!(),
    }
}

// Takes a hart's next step, which isn't refused. It fails only when out of memory.
fn take(joint: &mut Joint, hart: HartId) -> Result<(), AllocError>
    requires { CanStep joint.old hart }
    ensures { OnOk result (Took joint.old hart joint.new) }
{
    match joint.step(hart) {
        Ok(_) => Ok(()),
        Err(_) => Err(AllocError),
    }
}

// Takes these steps, each once. It fails only when out of memory.
fn take_all(joint: &mut Joint, steps: &[Entry]) -> Result<(), AllocError>
    requires { CanTake joint.old steps.now }
    ensures { OnOk result (LeadsBy joint.old steps.now joint.new) }
{
    for at in 0..steps.len() {
        take(joint, steps[at].hart)?;
    }
    Ok(())
}

/// Copies a joint replay, and takes these steps from there, each once.
pub(crate) fn replay<'a>(copy: &Joint<'a>, steps: &[Entry]) -> Result<Joint<'a>, AllocError>
    requires { CanTake copy.now steps.now }
    ensures { IfOk result (λ joint. LeadsBy copy.now steps.now joint) }
{
    match copy.copy() {
        Err(error) => Err(error),
        Ok(mut joint) => match take_all(&mut joint, steps) {
            Err(error) => Err(error),
            Ok(()) => Ok(joint),
        },
    }
}
