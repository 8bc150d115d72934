//! A page of memory, which takes memory only once it is made.
ghost use Rattle.std.specs.Prelude.{◌≡◌, ◌<◌, ℕ, true, false, [], length, slice_index, slice_set, vec_len, IsOk, OnOk, OnErr};

use std::alloc::{AllocError, Global};
use std::marker::Model;

/// How many words a page has.
pub(crate) const PAGE_WORDS: u32 = 1024;

/// How many bytes a page has.
pub(crate) const PAGE_BYTES: u32 = 4096;

/// A page of 1,024 words. It holds them all, or none if all are zeros. One that is made holds them,
/// and may be written.
#[derive(Drop)]
pub(crate) struct Page {
    words: Vec<u32>,
    made: bool,
}

impl Model for Page {
    ghost use Rattle.std.specs.Prelude.{◌≡◌, ◌<◌, true, length};
    ghost use Rattle.bus_memory.specs.Frames.{Frame};

    ghost Value = { Frame };

    ghost view = { λ p. record { words = p.words.items; made = p.made } };

    ghost invariant = { λ p. (0 < length p.words.items → length p.words.items ≡ 1024) × (p.made ≡ true → 0 < length p.words.items) };
}

impl Page {
    /// A page of zeros that isn't made, and takes no memory.
    pub(crate) fn unmade(alloc: Global) -> Page
        ensures { result ≡ record { words = []; made = false } }
    {
        Page {
            words: Vec::new(alloc),
            made: false,
        }
    }

    /// The page of these words, which is made.
    pub(crate) fn of_words(words: Vec<u32>) -> Page
        requires { vec_len words ≡ 1024 }
        ensures { result ≡ record { words = words.items; made = true } }
    {
        Page { words, made: true }
    }

    /// Whether it is made.
    pub(crate) fn is_made(&self) -> bool
        ensures value { result ≡ self.now.made }
        ensures words { result ≡ true → length self.now.words ≡ 1024 }
    {
        self.made
    }

    /// The word of a place, counted from 0.
    pub(crate) fn word(&self, place: usize) -> u32
        ensures { result ≡ slice_index self.now.words place }
    {
        self.words.get(place).copied().unwrap_or(0)
    }

    /// Writes a word.
    pub(crate) fn put(&mut self, place: usize, value: u32)
        requires made { self.old.made ≡ true }
        requires place { place < 1024 }
        ensures value { self.new ≡ record self.old { words = slice_set self.old.words place value } }
        ensures len { length self.old.words ≡ 1024 }
    {
        self.words[place] = value;
    }

    /// Finds memory for its words, unless it has some. Its words stay the same.
    pub(crate) fn find_memory(&mut self) -> Result<(), AllocError>
        ensures words { (k : ℕ) → slice_index self.new.words k ≡ slice_index self.old.words k }
        ensures made { self.new.made ≡ self.old.made }
        ensures found { OnOk result (length self.new.words ≡ 1024) }
        ensures ready { self.old.made ≡ true → IsOk result }
    {
        if self.words.is_empty() {
            let alloc = *self.words.allocator();
            self.words = vec![in alloc; 0; PAGE_WORDS as usize]?;
        }
        Ok(())
    }

    /// Makes the page, which has memory.
    pub(crate) fn make(&mut self)
        requires { length self.old.words ≡ 1024 }
        ensures { self.new ≡ record self.old { made = true } }
    {
        self.made = true;
    }
}
