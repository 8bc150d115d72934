//! What going back does to a trail: the state is the one that was there.
ghost use Rattle.std.specs.Prelude.{◌≡◌, ◌<◌, length, None, OnOk};
ghost use Rattle.joint_replay.specs.declared.kinds.Readiness.TheVariants.{Ready};
ghost use Rattle.joint_replay.specs.Joining.{readiness};
ghost use Rattle.back_step.specs.Trails.{GoesOnFrom};

use crate::trail::Trail;
use bn_base::HartId;
use std::alloc::AllocError;

// Takes a step, or finds it refused.
fn try_step(trail: &mut Trail, hart: HartId)
    requires there { hart < length trail.old.trace.now.lanes }
    requires ready { readiness trail.old.trace.now hart ≡ Ready }
    ensures { GoesOnFrom trail.old trail.new }
{
    match trail.step(hart) {
        Ok(_) => (),
        Err(_) => (),
    }
}

/// Takes a step, and goes back by it: nothing that shows changes, but for a refusal that was there.
pub fn there_and_back(trail: &mut Trail, hart: HartId) -> Result<(), AllocError>
    requires there { hart < length trail.old.trace.now.lanes }
    requires ready { readiness trail.old.trace.now hart ≡ Ready }
    ensures entries { OnOk result (trail.new.trace.entries ≡ trail.old.trace.entries) }
    ensures state { OnOk result (trail.old.trace.now.refused ≡ None → trail.new ≡ trail.old) }
{
    trail.came();
    let position = trail.position();
    try_step(trail, hart);
    match trail.seek(position) {
        Ok(_) => Ok(()),
        Err(error) => Err(error),
    }
}
