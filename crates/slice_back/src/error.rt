//! Why a slice can't be told.
use bn_base::Ic;
use hart_replay::ReplayError;
use thiserror::Error;

/// Why the slice of a row can't be told.
#[derive(Clone, Copy, Debug, Drop, Error)]
pub enum SliceError {
    /// The replay of the interval is refused.
    #[error("the replay is refused")]
    Replay(ReplayError),
    /// The interval has no row of this count.
    #[error("no row {ic}")]
    NoRow { ic: Ic },
    /// Not enough memory.
    #[error("out of memory")]
    OutOfMemory,
}
