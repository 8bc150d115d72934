//! A small trail, gone back twice.
ghost use Rattle.std.specs.Prelude.{◌≡◌, [], length, IfOk, OnOk};

use crate::trail::Trail;
use std::alloc::AllocError;

/// From the position 3 of a trail with a copy at each second one, back to 1 and then to 0. On the
/// first way back one step is taken again, and on the second none.
pub fn one_step_and_then_none(trail: &mut Trail) -> Result<(u64, u64), AllocError>
    requires every { trail.old.every ≡ 2 }
    requires position { length trail.old.trace.entries ≡ 3 }
    ensures steps { IfOk result (λ n. n ≡ (1, 0)) }
    ensures start { OnOk result (trail.new.trace.entries ≡ []) }
    ensures state { OnOk result (trail.new.trace.now ≡ trail.old.trace.start) }
{
    match trail.seek(1) {
        Err(error) => Err(error),
        Ok(first) => match trail.seek(0) {
            Err(error) => Err(error),
            Ok(second) => Ok((first, second)),
        },
    }
}
