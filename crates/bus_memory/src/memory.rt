//! Memory in pages: room is made before an access, so that the access itself can't fail.
ghost use Rattle.std.specs.Prelude.{◌≡◌, ◌≤◌, ◌<◌, ◌+◌, ◌*◌, ◌/◌, ◌%◌, ◌||◌, ◌^◌, ℕ, true, length, slice_index, slice_set, vec_len, IfOk, IsOk, OnOk, OnErr};
ghost use Rattle.bn_base.specs.Programs.{first_at};
ghost use Rattle.bus_memory.specs.Contents.{HoldsMap, updated, has_page, HasPages, shares_page, is_touched};

use crate::first::first_page;
use crate::page::{PAGE_BYTES, PAGE_WORDS, Page};
use crate::range::{find_memory, make};
use bn_base::{Addr, Image};
use std::alloc::{AllocError, Global};
use std::marker::Model;

/// The words of memory by address.
///
/// Contracts see the words from address 0 on, and of each page of 1,024 words whether it is made.
/// A page that isn't made holds zeros, and takes next to no memory. A word is found by two
/// look-ups in arrays.
#[derive(Drop)]
pub struct Memory {
    pages: Vec<Page>,
}

impl Model for Memory {
    ghost use Rattle.bus_memory.specs.Contents.{Contents};
    ghost use Rattle.bus_memory.specs.Frames.{contents_of};

    ghost Value = { Contents };

    ghost view = { λ m. contents_of m.pages.items };
}

// The number of an address's page.
fn page_of(addr: Addr) -> usize
    ensures { result ≡ addr / 4096 }
{
    (addr / PAGE_BYTES) as usize
}

// The place of an address's word in its page.
fn place_of(addr: Addr) -> usize
    ensures { result ≡ addr / 4 % 1024 }
{
    (addr / 4 % PAGE_WORDS) as usize
}

impl Memory {
    /// The memory of a program before it runs. The pages that a segment touches are made.
    pub fn new(alloc: Global, image: &Image) -> Result<Memory, AllocError>
        ensures map { IfOk result (λ m. HoldsMap m.words (first_at image.now)) }
        ensures size { IfOk result (λ m. 4 * length m.words ≡ image.now.memory) }
        ensures pages { IfOk result (λ m. (a : ℕ) → has_page m a ≡ is_touched image.now (a / 4096)) }
    {
        // No segment ends past the memory, so no page past it is touched.
        let _segments = image.segments();
        let count = image.memory() / PAGE_BYTES;
        let mut pages = Vec::with_capacity(alloc, count as usize)?;
        for number in 0..count {
            pages.push(first_page(alloc, image, number)?)?;
        }
        Ok(Memory { pages })
    }

    /// Whether the page of an address is made: by `new` or by `room`. It isn't past the end of
    /// memory.
    pub fn has_page(&self, addr: Addr) -> bool
        ensures value { result ≡ has_page self.now addr }
        ensures mapped { result ≡ true → addr < 4 * length self.now.words }
    {
        let number = page_of(addr);
        number < self.pages.len() && self.pages[number].is_made()
    }

    /// The word at an aligned address.
    pub fn word(&self, addr: Addr) -> u32
        requires aligned { addr % 4 ≡ 0 }
        requires mapped { addr < 4 * length self.now.words }
        ensures value { result ≡ slice_index self.now.words (addr / 4) }
        ensures map { (m : ℕ → ℕ) → HoldsMap self.now.words m → result ≡ m addr }
    {
        self.pages[page_of(addr)].word(place_of(addr))
    }

    /// Writes the word at an aligned address whose page is made. It takes no memory.
    pub fn put(&mut self, addr: Addr, value: u32)
        requires aligned { addr % 4 ≡ 0 }
        requires made { has_page self.old addr ≡ true }
        ensures value { self.new ≡ record self.old { words = slice_set self.old.words (addr / 4) value } }
        ensures size { length self.new.words ≡ length self.old.words }
        ensures map { (m : ℕ → ℕ) → HoldsMap self.old.words m → HoldsMap self.new.words (updated addr value m) }
    {
        self.pages[page_of(addr)].put(place_of(addr), value);
    }

    /// Makes the pages of `count` words from an aligned address on, which changes no word. It
    /// needs no memory if all of them are made. On `Err` nothing has changed.
    pub fn room(&mut self, addr: Addr, count: u32) -> Result<(), AllocError>
        requires aligned { addr % 4 ≡ 0 }
        requires mapped { addr + 4 * count ≤ 4 * length self.old.words }
        ensures words { self.new.words ≡ self.old.words }
        ensures pages { OnOk result ((a : ℕ) → has_page self.new a ≡ (has_page self.old a || shares_page addr (addr + 4 * count) (a / 4096))) }
        ensures made { OnOk result (HasPages self.new addr count) }
        ensures ready { HasPages self.old addr count → IsOk result }
        ensures unchanged { OnErr result (self.new ≡ self.old) }
    {
        if count == 0 {
            return Ok(());
        }
        let first = page_of(addr);
        let end = ((addr as u64 + 4 * count as u64 + 4095) / PAGE_BYTES as u64) as usize;
        find_memory(self.pages.as_mut_slice(), first, end)?;
        make(self.pages.as_mut_slice(), first, end);
        Ok(())
    }
}
