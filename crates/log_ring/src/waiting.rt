//! Bytes that wait.
ghost use Rattle.std.specs.Prelude.{◌≡◌, ◌≤◌, ◌+◌, ◌++◌, ◌==◌, [], length};

use std::marker::Model;

/// How many bytes may wait: 64 FirstLoads have so many.
pub(crate) const ROOM: usize = 640;

/// At most 640 bytes, kept in place.
#[derive(Drop)]
pub(crate) struct Waiting {
    bytes: [u8; 640],
    used: usize,
}

impl Model for Waiting {
    ghost use Rattle.std.specs.Prelude.{List, ℕ, ◌≤◌, take};

    ghost Value = { List ℕ };

    ghost view = { λ w. take w.used w.bytes };

    ghost invariant = { λ w. w.used ≤ 640 };
}

impl Waiting {
    /// No byte.
    pub(crate) fn new() -> Waiting
        ensures { result ≡ [] }
    {
        Waiting {
            bytes: [0; 640],
            used: 0,
        }
    }

    /// How many bytes they are.
    #[inline(always)]
    pub(crate) fn len(&self) -> usize
        ensures value { result ≡ length self.now }
        ensures bound { result ≤ 640 }
    {
        self.used
    }

    /// Whether there is none.
    pub(crate) fn is_empty(&self) -> bool
        ensures { result ≡ (length self.now == 0) }
    {
        self.used == 0
    }

    /// The bytes.
    pub(crate) fn as_slice(&self) -> &[u8]
        ensures { result.now ≡ self.now }
    {
        &self.bytes[..self.used]
    }

    /// Appends bytes.
    #[inline(always)]
    pub(crate) fn push(&mut self, more: &[u8])
        requires { length self.old + length more.now ≤ 640 }
        ensures { self.new ≡ self.old ++ more.now }
    {
        self.bytes[self.used..self.used + more.len()].copy_from_slice(more);
        self.used += more.len();
    }

    /// Takes all away.
    pub(crate) fn clear(&mut self)
        ensures { self.new ≡ [] }
    {
        self.used = 0;
    }
}
