//! The bytes of one record, in an array of the longest record's size: recorders write it without memory of the heap.
ghost use Rattle.std.specs.Prelude.{◌≡◌, ◌<◌, ◌≤◌, ◌+◌, ◌++◌, ◌∷◌, [], ◌↔◌, IsTrue, length, take};
ghost use Rattle.le_numbers.specs.Numbers.{number_bytes};

use le_numbers::{write_u32, write_u64};
use std::marker::Model;

/// How many bytes the longest record has.
pub const LONGEST: usize = 146;

/// At most 146 bytes, kept in place.
#[derive(Drop)]
pub struct Bytes {
    buffer: [u8; 146],
    used: usize,
}

impl Model for Bytes {
    ghost use Rattle.std.specs.Prelude.{List, ℕ, ◌≤◌, take};

    ghost Value = { List ℕ };

    ghost view = { λ s. take s.used s.buffer };

    ghost invariant = { λ s. s.used ≤ 146 };
}

impl Bytes {
    /// No bytes.
    pub fn new() -> Bytes
        ensures { result ≡ [] }
    {
        Bytes {
            buffer: [0; 146],
            used: 0,
        }
    }

    /// How many bytes they are.
    pub fn len(&self) -> usize
        ensures value { result ≡ length self.now }
        ensures bound { result ≤ 146 }
    {
        self.used
    }

    /// Tells whether there are none.
    pub fn is_empty(&self) -> bool
        ensures { IsTrue result ↔ (self.now ≡ []) }
    {
        self.used == 0
    }

    /// The bytes as a slice.
    pub fn as_slice(&self) -> &[u8]
        ensures { result.now ≡ self.now }
    {
        &self.buffer[..self.used]
    }

    /// Appends a byte.
    pub fn put(&mut self, byte: u8)
        requires { length self.old < 146 }
        ensures appended { self.new ≡ self.old ++ byte ∷ [] }
        ensures longer { length self.new ≡ length self.old + 1 }
    {
        self.buffer[self.used] = byte;
        self.used += 1;
    }

    /// Appends a number's four bytes, the least significant byte first.
    pub fn put_u32(&mut self, number: u32)
        requires { length self.old + 4 ≤ 146 }
        ensures appended { self.new ≡ self.old ++ number_bytes 4 number }
        ensures longer { length self.new ≡ length self.old + 4 }
    {
        write_u32(&mut self.buffer, self.used, number);
        self.used += 4;
    }

    /// Appends a number's eight bytes, the least significant byte first.
    pub fn put_u64(&mut self, number: u64)
        requires { length self.old + 8 ≤ 146 }
        ensures appended { self.new ≡ self.old ++ number_bytes 8 number }
        ensures longer { length self.new ≡ length self.old + 8 }
    {
        write_u64(&mut self.buffer, self.used, number);
        self.used += 8;
    }
}
