//! Why the replay of an interval stops before its end.
use bn_base::{Addr, EndMark, HartId, Ic};
use thiserror::Error;

/// Why the replay of an interval can't be done, or doesn't end as its log says.
#[derive(Clone, Copy, Debug, Drop, Error)]
pub enum ReplayError {
    /// No kept Header has this hart and interval.
    #[error("no interval {interval} of hart {hart}")]
    NoInterval {
        hart: u64,
        interval: u64,
    },
    /// The instruction at this count loads a word of the address that neither the log nor an
    /// earlier instruction of the interval tells.
    #[error("hart {hart} at {ic}: no word for address {addr:08x}")]
    LoadMissing {
        hart: HartId,
        ic: Ic,
        addr: Addr,
    },
    /// The log doesn't tell how the store-conditional at this count ended.
    #[error("hart {hart} at {ic}: no record of a store-conditional")]
    ScMissing {
        hart: HartId,
        ic: Ic,
    },
    /// So many first loads and store-conditionals of the log were not met.
    #[error("hart {hart}: {left} records left")]
    RecordsLeft {
        hart: HartId,
        left: u64,
    },
    /// The interval doesn't end with the mark that the log says.
    #[error("hart {hart}: another end")]
    EndDiffers {
        hart: HartId,
        said: EndMark,
        found: EndMark,
    },
    /// Not enough memory.
    #[error("out of memory")]
    OutOfMemory,
}
