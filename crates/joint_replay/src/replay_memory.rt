//! The memory of a joint replay: the words that its steps told, and no others.
ghost use Rattle.std.specs.Prelude.{◌≡◌, ◌≤◌, ◌<◌, ◌+◌, ◌*◌, ◌/◌, ◌^◌, ◌⊎◌, [], ◌∷◌, Some, OnOk, IfOk, MatchOption};
ghost use Rattle.joint_replay.specs.Common.{option_map, aligned};
ghost use Rattle.joint_replay.specs.Memory.{forget, put_word, word_in, known_from, put_access};
ghost use Rattle.joint_replay.specs.Words.{bytes_at};
ghost use Rattle.joint_replay.specs.Moves.{noted};

use crate::lane::{Did, Moved};
use bn_base::{Addr, Row};
use hart_replay::Words;
use std::alloc::{AllocError, Global};
use std::marker::Model;

/// For how many pages room is made at once: to look for room in each step would cost more than the step's words.
const PAGES: usize = 16;

/// The words that a joint replay knows. Contracts see them by ascending address, and for how many
/// pages more there is room.
#[derive(Drop)]
pub(crate) struct ReplayMemory {
    words: Words,
    /// No word of this number or above it is known.
    end: u32,
    /// For how many pages there is room at least.
    spare: usize,
}

impl Model for ReplayMemory {
    ghost use Rattle.std.specs.Prelude.{◌≤◌, ◌^◌};
    ghost use Rattle.joint_replay.specs.Words.{Remembered, words_of, AreBelow};

    ghost Value = { Remembered };

    ghost view = { λ m. record { words = words_of m.words.pages; room = m.words.room } };

    ghost invariant = { λ m. AreBelow m.end m.words.pages × (m.end ≤ 2 ^ 30) × (m.spare ≤ m.words.room) };
}

impl ReplayMemory {
    /// No word is known. It takes no memory.
    #[tactic(auto, using(crate::proofs::WordLists::no_words))]
    pub(crate) fn new(alloc: Global) -> ReplayMemory
        ensures { result.words ≡ [] }
    {
        ReplayMemory {
            words: Words::new(alloc),
            end: 0,
            spare: 0,
        }
    }

    /// The word at an address, if the log or a row before gave it; an address that isn't a multiple of 4 has none.
    #[tactic(auto, using(crate::proofs::WordLists::word_found, crate::proofs::WordLists::no_word))]
    pub(crate) fn word(&self, addr: Addr) -> Option<u32>
        ensures { result ≡ word_in self.now.words addr }
    {
        if addr % 4 == 0 {
            self.words.get(addr)
        } else {
            None
        }
    }

    /// The first known word at an address or above it.
    pub(crate) fn known_from(&self, from: u64) -> Option<(Addr, u32)>
        ensures { MatchOption result (known_from from self.now.words ≡ []) (λ m. known_from from self.now.words ≡ m ∷ known_from (m.0 + 4) self.now.words) }
    {
        for number in first_word(from)..self.end {
            if let Some(word) = self.words.get(4 * number) {
                return Some((4 * number, word));
            }
        }
        None
    }

    /// Makes room for the words of one row. The words stay.
    #[inline(always)]
    pub(crate) fn make_room(&mut self) -> Result<(), AllocError>
        ensures room { OnOk result (2 ≤ self.new.room) }
        ensures same { self.new.words ≡ self.old.words }
    {
        if self.spare >= 2 {
            return Ok(());
        }
        self.make_more_room()
    }

    // Makes room for the words of many rows.
    #[cold]
    #[inline(never)]
    fn make_more_room(&mut self) -> Result<(), AllocError>
        ensures room { OnOk result (2 ≤ self.new.room) }
        ensures same { self.new.words ≡ self.old.words }
    {
        self.spare = 0;
        self.words.make_room(PAGES)?;
        self.spare = PAGES;
        Ok(())
    }

    // Makes the aligned word of an address known.
    #[tactic(auto, using(crate::proofs::WordLists::word_put))]
    fn put(&mut self, addr: Addr, word: u32)
        requires { 0 < self.old.room }
        ensures word { self.new.words ≡ put_word (aligned addr) word self.old.words }
        ensures room { self.old.room ≤ self.new.room + 1 }
    {
        self.end = self.end.max(addr / 4 + 1);
        self.spare = self.spare.saturating_sub(1);
        match self.words.put(addr, word) {
            Ok(()) => (),
            Err(_) => unreachable!(),
        }
    }

    // Makes the words unknown that have one of so many bytes from an address on.
    fn forget(&mut self, first: Addr, count: u32)
        ensures words { self.new.words ≡ forget (Some (record { first = first; count = count })) self.old.words }
        ensures room { self.new.room ≡ self.old.room }
    {
        let last = last_word(first, count);
        for number in first / 4..last {
            self.words.forget(4 * number);
        }
    }

    // Makes a word known that a row tells, if it tells one.
    fn keep(&mut self, told: Option<(Addr, u32)>)
        requires { 0 < self.old.room }
        ensures words { self.new.words ≡ put_access told self.old.words }
        ensures room { self.old.room ≤ self.new.room + 1 }
    {
        if let Some((addr, word)) = told {
            self.put(addr, word);
        }
    }

    // Notes what a row tells: the word that it stored, else the one that it loaded, and nothing
    // more of the words of which a call filled bytes.
    #[inline(always)]
    fn note_row(&mut self, row: &Row, filled: Option<(Addr, u32)>)
        requires { 2 ≤ self.old.room }
        ensures { self.new.words ≡ put_access row.now.store (put_access row.now.load (forget (option_map bytes_at filled) self.old.words)) }
    {
        if let Some((first, count)) = filled {
            self.forget(first, count);
        }
        self.keep(row.load);
        self.keep(row.store);
    }

    /// Notes what a step tells.
    #[inline(always)]
    pub(crate) fn note(&mut self, moved: Moved, did: &Did)
        requires { 2 ≤ self.old.room }
        ensures { self.new.words ≡ noted moved did.now self.old.words }
    {
        match moved {
            Moved::Row => self.note_row(&did.row, did.filled),
            Moved::Passed(_) => (),
            Moved::Ended(..) => (),
        }
    }

    /// The same known words.
    pub(crate) fn copy(&self) -> Result<ReplayMemory, AllocError>
        ensures { IfOk result (λ m. m.words ≡ self.now.words) }
    {
        Ok(ReplayMemory {
            words: self.words.copy()?,
            end: self.end,
            spare: 0,
        })
    }
}

// The number of the first word at an address or above it.
fn first_word(from: u64) -> u32
    ensures first { ((from ≤ 4 * result) × (4 * result < from + 4)) ⊎ ((result ≡ 2 ^ 30) × (2 ^ 32 ≤ from)) }
    ensures bound { result ≤ 2 ^ 30 }
{
    if from < 1 << 32 {
        ((from + 3) / 4) as u32
    } else {
        1 << 30
    }
}

// The number after the last word that has one of so many bytes from an address on.
fn last_word(first: Addr, count: u32) -> u32
    ensures end { (result ≡ (first + count + 3) / 4) ⊎ ((result ≡ 2 ^ 30) × (2 ^ 30 ≤ (first + count + 3) / 4)) }
    ensures bound { result ≤ 2 ^ 30 }
{
    let last = (first as u64 + count as u64 + 3) / 4;
    if last < 1 << 30 { last as u32 } else { 1 << 30 }
}
