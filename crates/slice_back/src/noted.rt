//! Rows with the first loads that they took: a replay's trace, as the pass back reads it.
use bn_base::Row;

/// A row, and the value of the first load that it took from the log, if it took one.
#[derive(Clone, Copy, Drop)]
pub struct Noted {
    pub row: Row,
    pub first_load: Option<u32>,
}
