//! A stop on the way back: the breakpoint that ends it.
use bn_base::{Addr, HartId, Ic};

/// The step from a position, whose row is at a breakpoint: its hart, the hart's count, and the pc.
#[derive(Clone, Copy, Drop)]
pub struct Stop {
    pub position: u64,
    pub hart: HartId,
    pub ic: Ic,
    pub pc: Addr,
}
