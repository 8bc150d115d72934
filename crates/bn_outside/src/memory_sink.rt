//! A sink in memory, for tests: contracts can name what was written, and chosen writes fail.
ghost use Rattle.std.specs.Prelude.{◌≡◌, ◌≤◌, ◌<◌, ◌++◌, ◌⊎◌, take, min, Some, IfOk, IsErr, OnErr, length};
ghost use Rattle.bn_outside.specs.Counts.{CountsFault, Rose, counted};
ghost use Rattle.bn_outside.specs.Calls.{NextFails, after_call};
ghost use Rattle.bn_outside.specs.InMemory.{empty_sink};

use crate::calls::FailingCalls;
use crate::{Failed, Sink};
use std::alloc::Global;
use std::marker::Model;

/// A sink that keeps what it is given. The writes whose numbers are listed fail; the first write has
/// the number 1. Any other write fails only when out of memory, and if it has bytes to keep.
#[derive(Drop)]
pub struct MemorySink {
    written: Vec<u8>,
    most: usize,
    calls: FailingCalls,
    faults: u64,
}

impl Model for MemorySink {
    ghost use Rattle.std.specs.Prelude.{◌<◌};
    ghost use Rattle.bn_outside.specs.InMemory.{SinkState};

    ghost Value = { SinkState };

    ghost view = { λ s. record {
      written = s.written.items;
      most = s.most;
      calls = s.calls;
      faults = s.faults;
    } };

    ghost invariant = { λ s. 0 < s.most };
}

impl MemorySink {
    /// An empty sink that takes the whole of each piece.
    pub fn new(alloc: Global, failing: Vec<u64>) -> Self
        ensures { result ≡ empty_sink usize.MAX failing.items }
    {
        MemorySink::in_pieces(alloc, usize::MAX, failing)
    }

    /// An empty sink that takes at most `most` bytes of each piece.
    pub fn in_pieces(alloc: Global, most: usize, failing: Vec<u64>) -> Self
        requires { 0 < most }
        ensures { result ≡ empty_sink most failing.items }
    {
        MemorySink {
            written: Vec::new(alloc),
            most,
            calls: FailingCalls::new(failing),
            faults: 0,
        }
    }

    /// The bytes written so far.
    pub fn written(&self) -> &[u8]
        ensures { result.now ≡ self.now.written }
    {
        &self.written
    }
}

impl Sink for MemorySink {
    ghost stream = { λ s. record { text = Some s.written; faults = s.faults } };

    fn write(&mut self, piece: &[u8]) -> Result<usize, Failed>
        ensures bound { IfOk result (λ n. n ≤ length piece.now) }
        ensures some { IfOk result (λ n. 0 < length piece.now → 0 < n) }
        ensures taken { IfOk result (λ n. self.new.written ≡ self.old.written ++ take n piece.now) }
        ensures kept { OnErr result (self.new.written ≡ self.old.written) }
        ensures later { self.old.faults ≤ self.new.faults }
        ensures once { CountsFault self.old.faults self.new.faults result }
        ensures cause { OnErr result (Rose self.old.faults self.new.faults) }

        // A listed call fails, and one that does not fail takes all that it may.
        ensures listed { NextFails self.old.calls → IsErr result }
        ensures count { IfOk result (λ n. n ≡ min self.old.most (length piece.now)) }

        // A piece with no byte needs no memory.
        ensures memory { OnErr result (NextFails self.old.calls ⊎ (0 < length piece.now)) }

        // All else stays.
        ensures ok { IfOk result (λ n. self.new ≡ record self.old {
          written = self.old.written ++ take n piece.now;
          calls = after_call self.old.calls;
        }) }
        ensures err { OnErr result (self.new ≡ record self.old {
          calls = after_call self.old.calls;
          faults = counted self.old.faults;
        }) }
    {
        if self.calls.next_fails() {
            self.faults = self.faults.saturating_add(1);
            return Err(Failed);
        }
        let count = self.most.min(piece.len());
        if self.written.extend_from_slice(&piece[..count]).is_err() {
            self.faults = self.faults.saturating_add(1);
            return Err(Failed);
        }
        Ok(count)
    }
}
