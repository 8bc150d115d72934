//! A source in memory, for tests: contracts can name what is left, and chosen reads fail.
ghost use Rattle.std.specs.Prelude.{◌≡◌, ◌≤◌, ◌<◌, ◌↔◌, ◌++◌, take, drop, min, Some, IfOk, IsErr, OnErr, length};
ghost use Rattle.bn_outside.specs.Counts.{CountsFault, Rose, counted};
ghost use Rattle.bn_outside.specs.Calls.{NextFails, after_call};
ghost use Rattle.bn_outside.specs.InMemory.{source_over};
ghost use Rattle.bn_outside.specs.Streams.{EndsExactly};

use crate::calls::FailingCalls;
use crate::{Failed, Sink, Source};
use std::marker::Model;

/// A source over bytes in memory. Exactly the reads whose numbers are listed fail; the first read
/// has the number 1.
#[derive(Drop)]
pub struct MemorySource {
    bytes: Vec<u8>,
    at: usize,
    most: usize,
    calls: FailingCalls,
    faults: u64,
}

impl Model for MemorySource {
    ghost use Rattle.std.specs.Prelude.{◌<◌, ◌≤◌, length, drop};
    ghost use Rattle.bn_outside.specs.InMemory.{SourceState};

    ghost Value = { SourceState };

    ghost view = { λ s. record {
      left = drop s.at s.bytes.items;
      most = s.most;
      calls = s.calls;
      faults = s.faults;
    } };

    ghost invariant = { λ s. (s.at ≤ length s.bytes.items) × (0 < s.most) };
}

impl MemorySource {
    /// A source of these bytes, each read of which gives as many as the buffer has room for.
    pub fn new(bytes: Vec<u8>, failing: Vec<u64>) -> Self
        ensures { result ≡ source_over bytes.items usize.MAX failing.items }
    {
        MemorySource::in_pieces(bytes, usize::MAX, failing)
    }

    /// A source of these bytes, each read of which gives at most `most`.
    pub fn in_pieces(bytes: Vec<u8>, most: usize, failing: Vec<u64>) -> Self
        requires { 0 < most }
        ensures { result ≡ source_over bytes.items most failing.items }
    {
        MemorySource {
            bytes,
            at: 0,
            most,
            calls: FailingCalls::new(failing),
            faults: 0,
        }
    }

    /// The bytes that are left.
    pub fn left(&self) -> &[u8]
        ensures { result.now ≡ self.now.left }
    {
        &self.bytes[self.at..]
    }

    // Moves the bytes that one read may take to the front of `buffer`, and answers how many.
    #[tactic(auto, using(crate::proofs::Pieces::source_gives))]
    fn give(&mut self, buffer: &mut [u8]) -> usize
        ensures bound { result ≤ length buffer.new }
        ensures count { result ≡ min self.old.most (min (length buffer.old) (length self.old.left)) }
        ensures moved { self.old.left ≡ take result buffer.new ++ self.new.left }
        ensures end { EndsExactly (Some self.old.left) result buffer.new }
        ensures rest { buffer.new ≡ take result self.old.left ++ drop result buffer.old }
        ensures after { self.new ≡ record self.old { left = drop result self.old.left } }
    {
        let left = self.bytes.len() - self.at;
        let count = self.most.min(buffer.len().min(left));
        buffer[..count].copy_from_slice(&self.bytes[self.at..self.at + count]);
        self.at += count;
        count
    }
}

impl<O: Sink> Source<O> for MemorySource {
    ghost source = { λ s. record { left = Some s.left; faults = s.faults; noted = s.calls.made } };

    ghost note = { λ made _. counted made };

    fn read(&mut self, _: &O, buffer: &mut [u8]) -> Result<usize, Failed>
        ensures bound { IfOk result (λ n. n ≤ length buffer.new) }
        ensures moved { IfOk result (λ n. self.old.left ≡ take n buffer.new ++ self.new.left) }
        ensures end { IfOk result (λ n. EndsExactly (Some self.old.left) n buffer.new) }
        ensures kept { OnErr result (self.new.left ≡ self.old.left) }
        ensures later { self.old.faults ≤ self.new.faults }
        ensures called { self.new.calls.made ≡ counted self.old.calls.made }
        ensures once { CountsFault self.old.faults self.new.faults result }
        ensures cause { OnErr result (Rose self.old.faults self.new.faults) }

        // Exactly the listed calls fail, and the others give all that they may.
        ensures listed { IsErr result ↔ NextFails self.old.calls }
        ensures count { IfOk result (λ n.
            n ≡ min self.old.most (min (length buffer.old) (length self.old.left))) }

        // All else stays, the rest of the buffer too.
        ensures rest { IfOk result (λ n. buffer.new ≡ take n self.old.left ++ drop n buffer.old) }
        ensures untouched { OnErr result (buffer.new ≡ buffer.old) }
        ensures ok { IfOk result (λ n. self.new ≡ record self.old {
          left = drop n self.old.left;
          calls = after_call self.old.calls;
        }) }
        ensures err { OnErr result (self.new ≡ record self.old {
          calls = after_call self.old.calls;
          faults = counted self.old.faults;
        }) }
    {
        if self.calls.next_fails() {
            self.faults = self.faults.saturating_add(1);
            return Err(Failed);
        }
        Ok(self.give(buffer))
    }
}
