//! The state of a hart. A Header has one for its interval's start, and a replay begins with it.
use crate::Ic;
use crate::registers::Registers;

/// A hart between two instructions: the address of the next one, the registers,
/// and the number of instructions done so far.
#[derive(Clone, Copy, PartialEq, Eq, Drop)]
pub struct HartState {
    pub pc: u32,
    pub x: Registers,
    pub ic: Ic,
}
