//! A segment of a program: words that the file gives, zeros after them, and permissions.
ghost use Rattle.std.specs.Prelude.{◌≡◌, ◌≤◌, ◌+◌, ◌*◌, ◌%◌, ◌^◌, ℕ, true, vec_len, IfOk};
ghost use Rattle.std.specs.Bool.{Decides};
ghost use Rattle.std.specs.Cmp.Rules.{comparing};
ghost use Rattle.std.proofs.Common.{rules};
ghost use Rattle.bn_base.specs.Programs.{Part, end_of, is_in, word_in};
ghost use Rattle.bn_base.specs.Compared.{same_part};

use crate::Addr;
use std::alloc::AllocError;
use std::marker::Model;

/// A loadable segment of an ELF file in whole aligned words (ELF, "Program Header", PT_LOAD).
///
/// Contracts see its first address, the words that the file gives (those after them are 0),
/// how many words there are, and whether it is executable and writable.
// In whole words a fetch and a first access are one look-up and one index. The loader fills a word that the
// file's bytes only partly cover with 0.
#[derive(Drop)]
pub struct Segment {
    first: Addr,
    words: Vec<u32>,
    count: u32,
    executable: bool,
    writable: bool,
}

impl Model for Segment {
    ghost use Rattle.bn_base.specs.Programs.{Part, IsPart};

    ghost Value = { Part };

    ghost view = { λ s. record { first = s.first; words = s.words.items; count = s.count; executable = s.executable; writable = s.writable } };

    ghost invariant = { λ s. IsPart (record { first = s.first; words = s.words.items; count = s.count; executable = s.executable; writable = s.writable }) };
}

impl PartialEq for Segment {
    ghost eq = { same_part };

    ghost laws = { Prim.search (comparing, rules) depth 9 };

    /// Whether they are the same segment.
    fn eq(&self, other: &Segment) -> bool
        ensures value { result ≡ same_part self.now other.now }
        ensures same { Decides result (self.now ≡ other.now) }
    {
        self.first == other.first
            && self.words == other.words
            && self.count == other.count
            && self.executable == other.executable
            && self.writable == other.writable
    }
}

impl Segment {
    /// The segment of `count` words from the aligned address `first`; `words` are its first ones.
    pub fn new(
        first: Addr,
        words: Vec<u32>,
        count: u32,
        executable: bool,
        writable: bool,
    ) -> Segment
        requires aligned { first % 4 ≡ 0 }
        requires given { vec_len words ≤ count }
        requires within { first + 4 * count ≤ 2 ^ 32 }
        ensures { result ≡ record { first = first; words = words.items; count = count; executable = executable; writable = writable } }
    {
        Segment {
            first,
            words,
            count,
            executable,
            writable,
        }
    }

    /// An equal segment.
    pub fn copy(&self) -> Result<Segment, AllocError>
        ensures { IfOk result (λ s. s ≡ self.now) }
    {
        Ok(Segment {
            first: self.first,
            words: self.words.clone()?,
            count: self.count,
            executable: self.executable,
            writable: self.writable,
        })
    }

    /// The address of its first word.
    pub fn first(&self) -> Addr
        ensures { result ≡ self.now.first }
    {
        self.first
    }

    /// The address after its last word, at most 2^32.
    pub fn end(&self) -> u64
        ensures value { result ≡ end_of self.now }
        ensures bound { result ≤ 2 ^ 32 }
    {
        self.first as u64 + 4 * self.count as u64
    }

    /// Whether an address is in it.
    pub fn has(&self, addr: Addr) -> bool
        ensures { result ≡ is_in self.now addr }
    {
        self.first <= addr && (addr as u64) < self.end()
    }

    /// The aligned word of an address in it, as it stands before the run.
    pub fn word(&self, addr: Addr) -> u32
        requires { is_in self.now addr ≡ true }
        ensures { result ≡ word_in self.now addr }
    {
        self.words
            .get(((addr - self.first) / 4) as usize)
            .copied()
            .unwrap_or(0)
    }

    /// Whether its words are code.
    pub fn is_executable(&self) -> bool
        ensures { result ≡ self.now.executable }
    {
        self.executable
    }

    /// Whether stores may change its words.
    pub fn is_writable(&self) -> bool
        ensures { result ≡ self.now.writable }
    {
        self.writable
    }
}
