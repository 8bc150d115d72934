//! A page of 64 words, of which some are known.
ghost use Rattle.std.specs.Prelude.{◌≡◌, ◌<◌, ◌==◌, ℕ, length, Some, None, if◌then◌else◌};
ghost use Rattle.hart_replay.specs.Pages.{word_in, marked, cleared};

use std::alloc::AllocError;
use std::marker::Model;

/// How many words a page has.
pub(crate) const PAGE_WORDS: u32 = 64;

/// A page of 64 words, of which some are known.
#[derive(Drop)]
pub(crate) struct WordPage {
    /// One bit for each word, the lowest for the first: whether it is known.
    known: u64,
    words: [u32; 64],
}

impl Model for WordPage {
    ghost use Rattle.std.specs.Prelude.{◌≡◌, length};
    ghost use Rattle.hart_replay.specs.Pages.{Frame};

    ghost Value = { Frame };

    ghost view = { λ p. record { known = p.known; words = p.words } };

    ghost invariant = { λ p. length p.words ≡ 64 };
}

impl WordPage {
    /// A page of which no word is known.
    pub(crate) fn new() -> WordPage
        ensures { (k : ℕ) → word_in result k ≡ None }
    {
        WordPage {
            known: 0,
            words: [0; 64],
        }
    }

    /// The word at a place, if it is known.
    pub(crate) fn word(&self, place: u32) -> Option<u32>
        requires { place < 64 }
        ensures { result ≡ word_in self.now place }
    {
        if (self.known >> place) % 2 == 1 {
            Some(self.words[place as usize])
        } else {
            None
        }
    }

    fn mark(&mut self, place: u32, word: u32)
        requires { place < 64 }
        ensures value { self.new ≡ marked self.old place word }
        ensures count { length self.old.words ≡ 64 }
    {
        self.known |= 1 << place;
        self.words[place as usize] = word;
    }

    /// Makes a word known.
    pub(crate) fn put(&mut self, place: u32, word: u32)
        requires { place < 64 }
        ensures { (k : ℕ) → word_in self.new k ≡ (if k == place then Some word else word_in self.old k) }
    {
        self.mark(place, word);
    }

    fn clear(&mut self, place: u32)
        requires { place < 64 }
        ensures { self.new ≡ cleared self.old place }
    {
        self.known &= !(1 << place);
    }

    /// Makes a word unknown.
    pub(crate) fn forget(&mut self, place: u32)
        requires { place < 64 }
        ensures { (k : ℕ) → k < 64 → word_in self.new k ≡ (if k == place then None else word_in self.old k) }
    {
        self.clear(place);
    }

    /// A page with the same words known.
    pub(crate) fn copy(&self) -> WordPage
        ensures { result ≡ self.now }
    {
        WordPage {
            known: self.known,
            words: self.words,
        }
    }
}

impl Clone for WordPage {
    ghost is_clone = { λ p q. q ≡ p };

    fn clone(&self) -> Result<WordPage, AllocError> {
        Ok(self.copy())
    }
}
