//! A step that was taken.
ghost use Rattle.std.specs.Prelude.{◌≡◌};
ghost use Rattle.back_step.specs.Traces.{entry_told};

use bn_base::{Addr, HartId, Ic};
use joint_replay::Stepped;

/// A step that was taken: its hart, the hart's count there, and the pc of its row, if it gave one.
// All that a search for a breakpoint needs: so `rgo` of the debugger takes steps only once it has found one.
#[derive(Clone, Copy, PartialEq, Eq, Drop)]
pub struct Entry {
    pub hart: HartId,
    pub ic: Ic,
    pub pc: Option<Addr>,
}

impl Entry {
    /// The entry of a step of a hart.
    pub(crate) fn of(hart: HartId, stepped: &Stepped) -> Entry
        ensures { result ≡ entry_told hart stepped.now }
    {
        match *stepped {
            Stepped::Passed { ic, .. } => Entry { hart, ic, pc: None },
            Stepped::Did(row) => Entry {
                hart,
                ic: row.ic,
                pc: Some(row.pc),
            },
            Stepped::Ended { mark, .. } => Entry {
                hart,
                ic: mark.ic,
                pc: None,
            },
        }
    }
}
