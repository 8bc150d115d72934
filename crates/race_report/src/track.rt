//! The accesses of each word by each hart, the latest first: a point is compared with these.
ghost use Rattle.std.specs.Prelude.{◌≡◌, ◌<◌, ◌/◌, ◌==◌, ◌&&◌, ◌++◌, ◌∷◌, ℕ, List, [], cond, length, slice_get, Some, IfOk, OnOk, OnErr, IfSome};
ghost use Rattle.race_report.specs.Tracks.{IsTrackedIn, AreBelow, AreLinked, head_at, room_at, NotedOne};

use bn_base::{Addr, HartId};
use hart_replay::Words;
use std::alloc::{AllocError, Global};

/// The place of an access, and the number of the entry of the hart's access of the word before it.
#[derive(Clone, Copy, Drop)]
pub(crate) struct TrackEntry {
    pub(crate) place: u32,
    pub(crate) previous: Option<u32>,
}

/// For each hart and word the places of the hart's accesses of the word, the latest first.
#[derive(Drop)]
pub(crate) struct Track {
    // For each hart the number of the latest entry of each word.
    heads: Vec<Words>,
    entries: Vec<TrackEntry>,
    ghost linked: { AreLinked heads.items entries.items },
}

impl Track {
    /// No accesses of so many harts.
    pub(crate) fn new(alloc: Global, harts: HartId) -> Result<Track, AllocError>
        ensures harts { IfOk result (λ t. length t.heads.items ≡ harts) }
        ensures none { IfOk result (λ t. (h w : ℕ) → IsTrackedIn t.heads.items t.entries.items h w []) }
        ensures below { IfOk result (λ t. AreBelow 0 t.entries.items) }
    {
        let mut heads = Vec::new(alloc);
        for _ in 0..harts {
            heads.push(Words::new(alloc))?;
        }
        Ok(Track {
            heads,
            entries: Vec::new(alloc),
        })
    }

    // Makes room for a word of a hart more.
    fn make_room(&mut self, hart: HartId) -> Result<(), AllocError>
        requires { hart < length self.old.heads.items }
        ensures harts { length self.new.heads.items ≡ length self.old.heads.items }
        ensures heads { (h w : ℕ) → head_at self.new.heads.items h w ≡ head_at self.old.heads.items h w }
        ensures entries { self.new.entries ≡ self.old.entries }
        ensures room { OnOk result (0 < room_at self.new.heads.items hart) }
    {
        self.heads[hart as usize].make_room(1)
    }

    // Adds an entry, and answers its number.
    fn add_entry(&mut self, entry: TrackEntry) -> Result<u32, AllocError>
        requires { IfSome entry.previous (λ k. k < length self.old.entries.items) }
        ensures heads { self.new.heads ≡ self.old.heads }
        ensures below { (count : ℕ) → entry.place < count → AreBelow count self.old.entries.items → AreBelow count self.new.entries.items }
        ensures ok { IfOk result (λ number. (self.new.entries.items ≡ self.old.entries.items ++ entry ∷ []) × (number ≡ length self.old.entries.items)) }
        ensures err { OnErr result (self.new.entries.items ≡ self.old.entries.items) }
    {
        let number = self.entries.len();
        if number >= u32::MAX as usize {
            return Err(AllocError);
        }
        self.entries.push(entry)?;
        Ok(number as u32)
    }

    // Makes an entry the latest of a word of a hart.
    fn set_head(&mut self, hart: HartId, word: Addr, number: u32)
        requires hart { hart < length self.old.heads.items }
        requires room { 0 < room_at self.old.heads.items hart }
        requires number { number < length self.old.entries.items }
        ensures harts { length self.new.heads.items ≡ length self.old.heads.items }
        ensures heads { (h w : ℕ) → head_at self.new.heads.items h w ≡ cond (hart == h && (word / 4 == w / 4)) (Some number) (head_at self.old.heads.items h w) }
        ensures entries { self.new.entries ≡ self.old.entries }
    {
        match self.heads[hart as usize].put(word, number) {
            Ok(()) => (),
            Err(_) => unreachable!(),
        }
    }

    /// Adds an access of a word by a hart, at this place. There are fewer than 2^32 - 1 of them; one
    /// more is treated as out of memory.
    pub(crate) fn note(&mut self, hart: HartId, word: Addr, place: u32) -> Result<(), AllocError>
        requires { hart < length self.old.heads.items }
        ensures harts { length self.new.heads.items ≡ length self.old.heads.items }
        ensures below { (count : ℕ) → place < count → AreBelow count self.old.entries.items → AreBelow count self.new.entries.items }
        ensures noted { OnOk result (NotedOne hart place word self.old.heads.items self.old.entries.items self.new.heads.items self.new.entries.items) }
    {
        self.make_room(hart)?;
        let previous = self.latest(hart, word);
        let number = self.add_entry(TrackEntry { place, previous })?;
        self.set_head(hart, word, number);
        Ok(())
    }

    /// The number of the entry of a hart's latest access of a word.
    pub(crate) fn latest(&self, hart: HartId, word: Addr) -> Option<u32>
        requires { hart < length self.now.heads.items }
        ensures value { result ≡ head_at self.now.heads.items hart word }
        ensures there { IfSome result (λ k. k < length self.now.entries.items) }
    {
        self.heads[hart as usize].get(word)
    }

    /// An entry.
    pub(crate) fn entry(&self, number: u32) -> TrackEntry
        requires { number < length self.now.entries.items }
        ensures value { slice_get self.now.entries.items number ≡ Some result }
        ensures earlier { IfSome result.previous (λ k. k < number) }
    {
        self.entries[number as usize]
    }
}
