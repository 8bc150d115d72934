//! A sink that nobody reads: what is read to its end is answered nowhere meanwhile.
ghost use Rattle.std.specs.Prelude.{None};

use crate::{Failed, Sink};

/// A sink that takes all, and keeps nothing of it.
#[derive(Drop)]
pub struct NoSink;

impl Sink for NoSink {
    ghost stream = { λ _. record { text = None; faults = 0 } };

    fn write(&mut self, piece: &[u8]) -> Result<usize, Failed> {
        Ok(piece.len())
    }
}
