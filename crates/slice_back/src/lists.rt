//! A backward slice, as its caller gets it.
use bn_base::{Addr, Ic, List, Register, Row};

/// The backward slice of a row: what it depends on, within its interval.
///
/// All lists ascend, without repeats.
#[derive(Drop)]
pub struct Slice {
    /// The row itself, the rows that it needs, those that these need, and so on.
    pub rows: List<Row>,
    /// The registers that these use and that no row before them wrote, with their contents at the
    /// interval's start.
    pub regs: List<(Register, u32)>,
    /// The words that these use and that the log told: the count of the row that took each, its
    /// aligned address, and its contents.
    pub words: List<(Ic, Addr, u32)>,
    /// The conditional branches and indirect jumps before the row that aren't in the slice.
    pub branches: List<Row>,
}
