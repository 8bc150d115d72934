//! A source over a reader, and a sink over a writer.
ghost use Rattle.std.specs.Prelude.{◌≡◌, [], Some, cond, false};
ghost use Rattle.bn_outside.specs.Counts.{counted};

use crate::retries::write_on;
use crate::until_end::UntilEnd;
use bn_outside::{Failed, Sink, Source};
use std::io::{Read, Write};

/// A source of what a reader gives. Each read is one read of it, until it has said that it ended. One that a signal
/// interrupts is made again.
#[derive(Drop)]
pub struct ReaderSource<R> {
    inner: UntilEnd<R>,
    faults: u64,
    reads: u64,
}

impl<R: Read> ReaderSource<R> {
    /// A source of this reader, with nothing counted.
    pub fn new(inner: R) -> Self
        ensures inner { result.inner ≡ record { inner = inner; has_ended = false } }
        ensures faults { result.faults ≡ 0 }
        ensures reads { result.reads ≡ 0 }
    {
        ReaderSource {
            inner: UntilEnd::new(inner),
            faults: 0,
            reads: 0,
        }
    }
}

impl<R: Read, O: Sink> Source<O> for ReaderSource<R> {
    // It counts its reads.
    ghost source = { λ s. record {
      left = cond s.inner.has_ended (Some []) (R.remaining s.inner.inner);
      faults = s.faults;
      noted = s.reads;
    } };

    ghost note = { λ reads _. counted reads };

    #[tactic(auto, using(crate::proofs::AtEnd::ends_exactly))]
    fn read(&mut self, _: &O, buffer: &mut [u8]) -> Result<usize, Failed> {
        self.reads = self.reads.saturating_add(1);
        match self.inner.read(buffer) {
            Ok(count) => Ok(count),
            Err(_) => {
                self.faults = self.faults.saturating_add(1);
                Err(Failed)
            }
        }
    }
}

/// A sink that gives all to a writer. Each write is one write of it, and nothing waits. One that a signal interrupts is
/// made again.
#[derive(Drop)]
pub struct Writing<W> {
    inner: W,
    faults: u64,
}

impl<W: Write> Writing<W> {
    /// A sink that gives to this writer, with nothing counted.
    pub fn new(inner: W) -> Self
        ensures inner { result.inner ≡ inner }
        ensures faults { result.faults ≡ 0 }
    {
        Writing { inner, faults: 0 }
    }
}

impl<W: Write> Sink for Writing<W> {
    ghost stream = { λ s. record { text = W.contents s.inner; faults = s.faults } };

    // A writer that takes nothing of a piece has failed.
    fn write(&mut self, piece: &[u8]) -> Result<usize, Failed> {
        match write_on(&mut self.inner, piece) {
            Ok(count) if count > 0 => Ok(count),
            _ => {
                self.faults = self.faults.saturating_add(1);
                Err(Failed)
            }
        }
    }
}
