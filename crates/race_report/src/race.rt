//! Races: pairs of conflicting accesses that no synchronisation orders.
use bn_base::{Addr, Row};

/// Two instructions of different harts that no synchronisation orders, and that access a common word
/// which one of them writes.
#[derive(Clone, Copy, Drop)]
pub struct Race {
    /// The one that the joint replay does first.
    pub first: Row,
    pub second: Row,
    /// The lowest such word.
    pub word: Addr,
}
