//! Text that grows: replays, reports and the debugger gather their output in it. A failed append changes nothing.
ghost use Rattle.std.specs.Prelude.{false, ◌≡◌, ◌<◌, ◌++◌, [], ◌==◌, List, ℕ, ◌+◌, ◌≤◌, length, take, codes, OnOk, OnErr, decimal};
ghost use Rattle.std.specs.Fmt.{signed_decimal, digits};
ghost use Rattle.rv_text.specs.Instructions.{hex8};

use crate::digits::eight_digits;
use std::alloc::{AllocError, Global};
use std::marker::Model;

/// Text that grows at its end, in ASCII. Contracts see the list of its bytes.
#[derive(Drop)]
pub struct Text {
    bytes: Vec<u8>,
}

impl Model for Text {
    ghost Value = { List ℕ };

    ghost view = { λ t. t.bytes.items };
}

impl Text {
    /// The empty text.
    pub fn new(alloc: Global) -> Text
        ensures { result ≡ [] }
    {
        Text {
            bytes: Vec::new(alloc),
        }
    }

    /// The number of bytes.
    pub fn len(&self) -> usize
        ensures { result ≡ length self.now }
    {
        self.bytes.len()
    }

    /// Whether there is no byte.
    pub fn is_empty(&self) -> bool
        ensures { result ≡ (length self.now == 0) }
    {
        self.bytes.is_empty()
    }

    /// The bytes.
    pub fn as_bytes(&self) -> &[u8]
        ensures { result.now ≡ self.now }
    {
        self.bytes.as_slice()
    }

    /// Takes all bytes out. The memory is kept for the next.
    pub fn clear(&mut self)
        ensures { self.new ≡ [] }
    {
        self.bytes.clear();
    }

    /// Keeps the first `len` bytes.
    pub fn truncate(&mut self, len: usize)
        ensures { self.new ≡ take len self.old }
    {
        self.bytes.truncate(len);
    }

    /// Appends bytes. No byte needs no memory.
    pub fn push_bytes(&mut self, bytes: &[u8]) -> Result<(), AllocError>
        ensures ok { OnOk result (self.new ≡ self.old ++ bytes.now) }
        ensures err { OnErr result (self.new ≡ self.old) }
        ensures some { OnErr result (0 < length bytes.now) }
    {
        self.bytes.extend_from_slice(bytes)
    }

    /// Appends a word. The empty one needs no memory.
    pub fn push_str(&mut self, word: &str) -> Result<(), AllocError>
        ensures ok { OnOk result (self.new ≡ self.old ++ word.now) }
        ensures err { OnErr result (self.new ≡ self.old) }
        ensures some { OnErr result (0 < length word.now) }
    {
        self.bytes.extend_from_slice(word.as_bytes())
    }

    /// Appends a number in decimal.
    pub fn push_decimal(&mut self, n: u64) -> Result<(), AllocError>
        ensures ok { OnOk result (self.new ≡ self.old ++ decimal n) }
        ensures err { OnErr result (self.new ≡ self.old) }
    {
        let mut buffer = itoa::Buffer::new();
        self.push_str(buffer.format(n))
    }

    /// Appends a signed number in decimal.
    pub fn push_signed_decimal(&mut self, n: i32) -> Result<(), AllocError>
        ensures ok { OnOk result (self.new ≡ self.old ++ signed_decimal n) }
        ensures err { OnErr result (self.new ≡ self.old) }
    {
        let mut buffer = itoa::Buffer::new();
        self.push_str(buffer.format(n))
    }

    /// Appends a number as eight hexadecimal digits.
    pub fn push_hex8(&mut self, n: u32) -> Result<(), AllocError>
        ensures ok { OnOk result (self.new ≡ self.old ++ hex8 n) }
        ensures err { OnErr result (self.new ≡ self.old) }
    {
        self.push_bytes(&eight_digits(n))
    }

    /// Puts two bytes at a place, and keeps no byte after them.
    #[inline(always)]
    pub(crate) fn end_with(&mut self, at: usize, tail: [u8; 2])
        requires { at + 2 ≤ length self.old }
        ensures { self.new ≡ take at self.old ++ tail }
    {
        self.bytes[at] = tail[0];
        self.bytes[at + 1] = tail[1];
        self.bytes.truncate(at + 2);
    }

    /// Puts the end of a line at a place, and keeps no byte after it.
    #[inline(always)]
    pub(crate) fn end_line(&mut self, at: usize)
        requires { at < length self.old }
        ensures { self.new ≡ take at self.old ++ codes "\n" }
    {
        self.bytes[at] = 10;
        self.bytes.truncate(at + 1);
    }

    /// Puts eight hexadecimal digits and the end of a line at a place, and keeps no byte after them.
    #[inline(always)]
    pub(crate) fn end_line_with(&mut self, at: usize, n: u32)
        requires { at + 9 ≤ length self.old }
        ensures { self.new ≡ take at self.old ++ (hex8 n ++ codes "\n") }
    {
        self.bytes[at..at + 8].copy_from_slice(&eight_digits(n));
        self.end_line(at + 8);
    }

    /// Appends a number in hexadecimal without leading zeros.
    pub fn push_hex(&mut self, n: u32) -> Result<(), AllocError>
        ensures ok { OnOk result (self.new ≡ self.old ++ digits 16 false n) }
        ensures err { OnErr result (self.new ≡ self.old) }
    {
        let alloc = *self.bytes.allocator();
        let word = format!(in alloc; "{n:x}")?;
        self.push_str(word.as_str())
    }
}
