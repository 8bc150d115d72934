//! What is kept of one access. Pages are made of these.
ghost use Rattle.std.specs.Prelude.{◌≡◌, ◌<◌};
ghost use Rattle.bn_base.specs.declared.settings.TheConstants.{HARTS};

use crate::mode::Mode;
use bn_base::{HartId, Ic};

/// What is kept of one access of a word, or nothing if `after` is 0.
#[derive(Clone, Copy)]
pub struct Slot {
    pub turn: u64,
    /// The count after the access's point.
    pub after: Ic,
    /// The number of the epoch that the point is in.
    pub epoch: u32,
    pub hart: HartId,
    ghost in_range: { hart < HARTS },
}

impl Slot {
    /// A slot in which nothing is kept.
    pub fn empty() -> Slot
        ensures after { result.after ≡ 0 }
        ensures epoch { result.epoch ≡ 0 }
    {
        Slot {
            turn: 0,
            after: 0,
            epoch: 0,
            hart: 0,
        }
    }
}

/// A kept access that a search found.
#[derive(Clone, Copy)]
pub struct FoundAccess {
    pub turn: u64,
    pub after: Ic,
    pub epoch: u32,
    pub hart: HartId,
    pub mode: Mode,
    ghost in_range: { hart < HARTS },
    ghost some: { 0 < after },
}
