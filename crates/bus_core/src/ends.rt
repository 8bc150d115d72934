//! The last marks of the harts, which a closed bus hands over.
ghost use Rattle.std.specs.Prelude.{◌≡◌, ◌≤◌, not, ◌&&◌, map, length, vec_len, vec_capacity, IfOk};
ghost use Rattle.bn_base.specs.declared.settings.TheConstants.{HARTS};
ghost use Rattle.run_model.specs.declared.hart.Hart.{Hart};
ghost use Rattle.run_model.specs.Represents.Harts.{hart_in};
ghost use Rattle.run_model.specs.Runs.{any_live};

use bn_base::{EndMark, HARTS};
use run_model::Hart;
use std::alloc::{AllocError, Global};

/// Room for the last marks of all harts, taken when a run begins, so that its end needs no memory.
#[derive(Drop)]
pub struct Ends {
    marks: Vec<Option<EndMark>>,
    ghost none: { vec_len marks ≡ 0 },
    ghost room: { HARTS ≤ vec_capacity marks },
}

impl Ends {
    /// Finds the room. The only error is out of memory.
    pub fn new(alloc: Global) -> Result<Ends, AllocError> {
        Ok(Ends {
            marks: Vec::with_capacity(alloc, HARTS)?,
        })
    }

    /// The last end mark of each hart; `None` of one that has not ended an interval. It takes no memory.
    pub fn of(self, harts: &Vec<Hart>) -> Vec<Option<EndMark>>
        requires { length harts.now.items ≤ HARTS }
        ensures { result.items ≡ map (λ (h : Hart). h.mark) harts.now.items }
    {
        let mut marks = self.marks;
        for hart in harts {
            match marks.push(hart.mark) {
                Ok(()) => (),
                Err(_) => unreachable!(),
            }
        }
        marks
    }
}

/// Whether some hart is live.
pub fn any_live(harts: &Vec<Hart>) -> bool
    ensures { result ≡ any_live (length harts.now.items) (hart_in harts.now.items) }
{
    let mut found = false;
    for number in 0..harts.len() {
        found = harts[number].live || found;
    }
    found
}

/// Whether turns ended a run: no hart is live, and neither a halt nor an ask that isn't orderly ended it.
pub fn is_finished(halted: bool, disordered: bool, live: bool) -> bool
    ensures { result ≡ (not halted && not disordered && not live) }
{
    !halted && !disordered && !live
}
