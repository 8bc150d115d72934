//! The words that a replay knows: those that the log gave, and those that rows loaded or stored.
ghost use Rattle.std.specs.Prelude.{◌≡◌, ◌≤◌, ◌<◌, ◌+◌, ◌/◌, ◌==◌, ℕ, Some, None, if◌then◌else◌, OnOk, IfOk, IsOk};
ghost use Rattle.hart_replay.specs.Pages.{word_at, word_in};
ghost use Rattle.hart_replay.specs.Directories.{stands_at};

use crate::directory::Directory;
use crate::page::{PAGE_WORDS, WordPage};
use bn_base::Addr;
use std::alloc::{AllocError, Global};
use std::marker::Model;

/// A page with its number.
#[derive(Drop)]
pub(crate) struct TaggedPage {
    number: u32,
    page: WordPage,
}

impl TaggedPage {
    // A page of which one word is known.
    fn of_word(number: u32, at: u32, word: u32) -> TaggedPage
        requires { at < 64 }
        ensures number { result.number ≡ number }
        ensures word { (k : ℕ) → word_in result.page k ≡ (if k == at then Some word else None) }
    {
        let mut page = WordPage::new();
        page.put(at, word);
        TaggedPage { number, page }
    }
}

impl Clone for TaggedPage {
    ghost is_clone = { λ p q. q ≡ p };

    fn clone(&self) -> Result<TaggedPage, AllocError> {
        Ok(TaggedPage {
            number: self.number,
            page: self.page.copy(),
        })
    }
}

// Whether the page of a number is at a place.
fn stands_at(pages: &[TaggedPage], place: usize, number: u32) -> bool
    ensures { result ≡ stands_at pages.now place number }
{
    match pages.get(place) {
        None => false,
        Some(page) => page.number == number,
    }
}

/// The known words by address, in pages of 64 words. A page is made when the first of its words is put.
///
/// Contracts see the pages, and for how many more there is room. Word k has the addresses from 4k on.
/// A page is found by four look-ups in arrays, whatever the addresses are.
#[derive(Drop)]
pub struct Words {
    directory: Directory,
    pages: Vec<TaggedPage>,
}

impl Model for Words {
    ghost use Rattle.std.specs.Prelude.{◌-◌, min, vec_len, vec_capacity};
    ghost use Rattle.hart_replay.specs.Pages.{Known};
    ghost use Rattle.hart_replay.specs.Directories.{page_at, pages_of, place_for};

    ghost Value = { Known };

    ghost view = { λ w. record { pages = pages_of (page_at (place_for w.directory) w.pages.items); room = min w.directory.room (vec_capacity w.pages - vec_len w.pages) } };
}

impl Words {
    /// No words. It takes no memory.
    pub fn new(alloc: Global) -> Words
        ensures { (k : ℕ) → word_at result.pages k ≡ None }
    {
        Words {
            directory: Directory::new(alloc),
            pages: Vec::new(alloc),
        }
    }

    /// The aligned word of an address, if it is known.
    pub fn get(&self, addr: Addr) -> Option<u32>
        ensures { result ≡ word_at self.now.pages (addr / 4) }
    {
        let number = addr / 4;
        let page = number / PAGE_WORDS;
        match self.pages.get(self.directory.place(page)) {
            None => None,
            Some(found) => {
                if found.number == page {
                    found.page.word(number % PAGE_WORDS)
                } else {
                    None
                }
            }
        }
    }

    /// Makes room for so many more pages. The words stay.
    #[inline(always)]
    pub fn make_room(&mut self, pages: usize) -> Result<(), AllocError>
        ensures room { OnOk result (pages ≤ self.new.room) }
        ensures same { (k : ℕ) → word_at self.new.pages k ≡ word_at self.old.pages k }
    {
        self.directory.make_room(pages)?;
        self.pages.reserve(pages)
    }

    /// Makes the aligned word of an address known. It takes no memory if there is room for a page, and
    /// fills the room of one at most.
    pub fn put(&mut self, addr: Addr, word: u32) -> Result<(), AllocError>
        ensures word { OnOk result ((k : ℕ) → word_at self.new.pages k ≡ (if k == addr / 4 then Some word else word_at self.old.pages k)) }
        ensures taken { 0 < self.old.room → IsOk result }
        ensures room { self.old.room ≤ self.new.room + 1 }
    {
        let number = addr / 4;
        let page = number / PAGE_WORDS;
        let at = number % PAGE_WORDS;
        let place = self.directory.place(page);
        if stands_at(&self.pages, place, page) {
            self.pages[place].page.put(at, word);
            return Ok(());
        }
        let end = self.pages.len();
        self.pages.push(TaggedPage::of_word(page, at, word))?;
        self.directory.put(page, end)
    }

    /// Makes the aligned word of an address unknown.
    pub fn forget(&mut self, addr: Addr)
        ensures word { (k : ℕ) → word_at self.new.pages k ≡ (if k == addr / 4 then None else word_at self.old.pages k) }
        ensures room { self.new.room ≡ self.old.room }
    {
        let number = addr / 4;
        let page = number / PAGE_WORDS;
        let place = self.directory.place(page);
        if stands_at(&self.pages, place, page) {
            self.pages[place].page.forget(number % PAGE_WORDS);
        }
    }

    /// The same known words. It takes memory in proportion to their pages.
    pub fn copy(&self) -> Result<Words, AllocError>
        ensures { IfOk result (λ w. w.pages ≡ self.now.pages) }
    {
        let alloc = *self.pages.allocator();
        let pages = Vec::from_clones(alloc, &self.pages)?;
        match self.directory.copy() {
            Err(error) => Err(error),
            Ok(directory) => Ok(Words { directory, pages }),
        }
    }
}
