//! What one instruction did: the unit of which replays, their texts, slices and race reports are made.
use crate::fault::Fault;
use crate::register::Register;
use crate::{Addr, HartId, Ic};

/// One instruction that a hart did, or the one that faulted.
///
/// In `load` and `store` the address is the access's byte address, and the value is the whole
/// aligned word: before a load, after a store. An AMO has both.
#[derive(Clone, Copy, Debug, Drop)]
pub struct Row {
    pub hart: HartId,
    /// The number of instructions that the hart had done before it.
    pub ic: Ic,
    pub pc: u32,
    /// The instruction word; `None` if the pc is at no code word.
    pub word: Option<u32>,
    /// The register that it wrote, other than x0, with its new contents.
    pub reg: Option<(Register, u32)>,
    pub load: Option<(Addr, u32)>,
    pub store: Option<(Addr, u32)>,
    /// The fault and its value, if it wasn't done.
    pub fault: Option<(Fault, u32)>,
}
