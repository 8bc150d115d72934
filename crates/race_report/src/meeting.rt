//! A later place that some place races with, as the lists of races keep it.
use bn_base::Addr;

/// A later place that is a race with some place, and the race's word.
#[derive(Clone, Copy, Drop)]
pub struct Meeting {
    pub second: u32,
    pub word: Addr,
}
