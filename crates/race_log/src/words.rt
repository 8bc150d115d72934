//! The kept accesses of all words, in pages, and the epochs that they name.
ghost use Rattle.std.specs.Prelude.{◌≡◌, ◌+◌, ◌*◌, ◌/◌, ◌%◌, ◌<◌, ◌≤◌, ◌^◌, ℕ, [], IsTrue, IsOk, OnOk, OnErr, IfOk, ◌≢◌, max, true, false, length, slice_get, vec_len};
ghost use Rattle.bn_base.specs.declared.settings.TheConstants.{HARTS};
ghost use Rattle.race_log.specs.Slots.{AreFull, AreSettled, slots_in};
ghost use Rattle.race_log.specs.Bound.{most_epochs};

use crate::epochs::Epochs;
use crate::mode::Mode;
use crate::page::{keep_in, make_slots, mark_page};
use crate::slot::Slot;
use bn_base::{Addr, HartId, Ic};
use std::alloc::{AllocError, Global};
use vector_time::Times;

/// The bytes of memory whose words have their slots in one page: 64 words.
const PAGE_BYTES: u32 = 256;

/// How many epochs there are before the table is looked through for the first time.
const FIRST_LIMIT: usize = 1024;

/// The accesses that are kept, by word: of each word its last write, and of each hart its last read
/// after that. With one hart none is kept, since no edge can come from it.
///
/// The slots of 64 words are a page, which is made with the first access of one of them.
// A page is found by its number in a list: no key that a program chooses is hashed, and no word has a list on
// the heap.
#[derive(Drop)]
pub struct KeptWords {
    pub harts: HartId,
    pub pages: Vec<Vec<Slot>>,
    pub epochs: Epochs,
    limit: usize,
    ghost few: { harts ≤ HARTS },
    ghost few_pages: { vec_len pages ≤ 2 ^ 24 },
    ghost full: { AreFull harts pages.items },
    ghost settled: { AreSettled epochs.table.items epochs.next pages.items },
    ghost few_epochs: { length epochs.table.items ≤ most_epochs (slots_in pages.items) (length pages.items) },
    ghost low_limit: { limit ≤ most_epochs (slots_in pages.items) (length pages.items) },
}

impl KeptWords {
    ghost use Rattle.vector_time.specs.Times.{count_of};
    ghost use Rattle.race_log.specs.Words.{page_of, place_of, kept_in, kept_now, kept_of_slot, epoch_counts, present_counts, has_epoch, has_room, HasPages, HasRoom, KeepsAccess, AreAllUsed, IsAsLarge, MakesPages, size_of};
    ghost use Rattle.race_log.specs.Kept.{Replaces};
    ghost use Rattle.race_log.specs.Slots.{slots_of, is_settled, marks_in};

    /// Keeps nothing.
    #[tactic(auto, using(crate::proofs::PagesLemmas::empty_word))]
    pub fn new(alloc: Global, harts: HartId) -> Result<KeptWords, AllocError>
        requires { harts ≤ HARTS }
        ensures harts { IfOk result (λ k. k.harts ≡ harts) }
        ensures none { IfOk result (λ k. (w : ℕ) → kept_in k w ≡ []) }
        ensures counts { IfOk result (λ k. (epoch h : ℕ) → epoch_counts k.epochs epoch h ≡ 0) }
        ensures pages { IfOk result (λ k. k.pages.items ≡ []) }
        ensures limit { IfOk result (λ k. k.limit ≡ 1024) }
    {
        let epochs = Epochs::new(alloc)?;
        Ok(KeptWords {
            harts,
            pages: Vec::new(alloc),
            epochs,
            limit: FIRST_LIMIT,
        })
    }

    /// The slots of the page of an address, none if it isn't made.
    pub fn page(&self, word: Addr) -> &[Slot]
        ensures { result.now ≡ page_of self.now word }
    {
        match self.pages.get((word / PAGE_BYTES) as usize) {
            Some(page) => page,
            None => &[],
        }
    }

    /// The index in their page at which the slots of an address's word begin.
    pub fn place(&self, word: Addr) -> usize
        ensures { result ≡ place_of self.now.harts word }
    {
        (word / 4 % 64) as usize * (self.harts as usize + 1)
    }

    /// Makes room for an access of `count` words from `first`. What is kept stays, and so does room.
    #[inline(always)]
    pub fn make_room(&mut self, first: Addr, count: u32) -> Result<(), AllocError>
        requires aligned { first % 4 ≡ 0 }
        requires range { first + 4 * count ≤ 2 ^ 32 }
        ensures harts { self.new.harts ≡ self.old.harts }
        ensures same { (w : ℕ) → kept_in self.new w ≡ kept_in self.old w }
        ensures present { (g h : ℕ) → present_counts self.new.epochs g h ≡ present_counts self.old.epochs g h }
        ensures room { OnOk result (HasRoom self.new first count) }
        ensures stays { (f n : ℕ) → HasRoom self.old f n → HasRoom self.new f n }
        ensures ready { HasRoom self.old first count → IsOk result }
        ensures pages { MakesPages first count self.old self.new }
        // Below the limit the epochs aren't looked through, so it stays.
        ensures early { length self.old.epochs.table.items < self.old.limit → self.new.limit ≡ self.old.limit }
    {
        if self.harts < 2 || self.is_ready(first, count) {
            return Ok(());
        }
        self.make_room_for_many(first, count)
    }

    // Whether there is room for an access of one word, as there is before nearly each: so no loop is entered for it.
    #[inline(always)]
    fn is_ready(&self, first: Addr, count: u32) -> bool
        ensures { result ≡ true → HasRoom self.now first count }
    {
        if count != 1 || self.page(first).is_empty() {
            return false;
        }
        self.epochs.has_next()
    }

    // Makes room for an access if there are several harts.
    #[inline(never)]
    fn make_room_for_many(&mut self, first: Addr, count: u32) -> Result<(), AllocError>
        requires many { 1 < self.old.harts }
        requires aligned { first % 4 ≡ 0 }
        requires range { first + 4 * count ≤ 2 ^ 32 }
        ensures harts { self.new.harts ≡ self.old.harts }
        ensures same { (w : ℕ) → kept_in self.new w ≡ kept_in self.old w }
        ensures present { (g h : ℕ) → present_counts self.new.epochs g h ≡ present_counts self.old.epochs g h }
        ensures room { OnOk result (HasRoom self.new first count) }
        ensures stays { (f n : ℕ) → HasRoom self.old f n → HasRoom self.new f n }
        ensures ready { HasRoom self.old first count → IsOk result }
        ensures pages { MakesPages first count self.old self.new }
        ensures early { length self.old.epochs.table.items < self.old.limit → self.new.limit ≡ self.old.limit }
    {
        self.make_pages(first, count)?;
        self.look_through();
        self.epochs.make_room()
    }

    // Frees epochs if none can begin but by growth, and the table has grown to its limit.
    fn look_through(&mut self)
        ensures harts { self.new.harts ≡ self.old.harts }
        ensures pages { self.new.pages ≡ self.old.pages }
        ensures counts { (epoch h : ℕ) → epoch_counts self.new.epochs epoch h ≡ epoch_counts self.old.epochs epoch h }
        ensures present { self.new.epochs.present ≡ self.old.epochs.present }
        ensures room { IsTrue (has_epoch self.old.epochs) → IsTrue (has_epoch self.new.epochs) }
        // If an epoch can begin only by growth, the table is below its limit.
        ensures growth { AreAllUsed self.new.epochs → length self.new.epochs.table.items < self.new.limit }
        // Below the limit nothing is looked through.
        ensures early { length self.old.epochs.table.items < self.old.limit → (self.new.limit ≡ self.old.limit) × (self.new.epochs.table ≡ self.old.epochs.table) }
    {
        if self.epochs.is_full() && self.epochs.len() >= self.limit {
            self.free_epochs();
        }
    }

    // Frees the epochs that no kept access names and that are no hart's present one. Until the table
    // is looked through again, as many begin as it then has in use, and more by the number of pages.
    fn free_epochs(&mut self)
        requires { self.old.epochs.next ≡ length self.old.epochs.table.items }
        ensures harts { self.new.harts ≡ self.old.harts }
        ensures pages { self.new.pages ≡ self.old.pages }
        ensures counts { (epoch h : ℕ) → epoch_counts self.new.epochs epoch h ≡ epoch_counts self.old.epochs epoch h }
        ensures present { self.new.epochs.present ≡ self.old.epochs.present }
        ensures start { self.new.epochs.next ≡ 0 }
        ensures limit { self.new.limit ≡ 2 * marks_in self.new.epochs.table.items + 8 * length self.new.pages.items }
        ensures growth { AreAllUsed self.new.epochs → length self.new.epochs.table.items < self.new.limit }
    {
        self.epochs.begin_marks();
        for number in 0..self.pages.len() {
            mark_page(&mut self.epochs, &self.pages[number]);
        }
        let used = self.epochs.used();
        self.limit = used
            .saturating_add(used)
            .saturating_add(self.pages.len().saturating_mul(8));
        self.epochs.restart();
    }

    // Makes the pages of `count` words from `first`.
    fn make_pages(&mut self, first: Addr, count: u32) -> Result<(), AllocError>
        requires aligned { first % 4 ≡ 0 }
        requires range { first + 4 * count ≤ 2 ^ 32 }
        ensures harts { self.new.harts ≡ self.old.harts }
        ensures epochs { self.new.epochs ≡ self.old.epochs }
        ensures same { (w : ℕ) → kept_in self.new w ≡ kept_in self.old w }
        ensures stays { (w : ℕ) → IsTrue (has_room self.old w) → IsTrue (has_room self.new w) }
        ensures room { OnOk result (HasPages self.new first count) }
        ensures ready { HasPages self.old first count → IsOk result }
        ensures pages { MakesPages first count self.old self.new }
        ensures limit { self.new.limit ≡ self.old.limit }
    {
        if count == 0 {
            return Ok(());
        }
        let last = first + 4 * (count - 1);
        self.reach((last / PAGE_BYTES) as usize + 1)?;
        for number in first / PAGE_BYTES..last / PAGE_BYTES + 1 {
            self.make_page(number as usize)?;
        }
        Ok(())
    }

    // Has at least so many pages, of which those that are new aren't made.
    fn reach(&mut self, count: usize) -> Result<(), AllocError>
        requires { count ≤ 2 ^ 24 }
        ensures harts { self.new.harts ≡ self.old.harts }
        ensures epochs { self.new.epochs ≡ self.old.epochs }
        ensures same { (n : ℕ) → slots_of (slice_get self.new.pages.items n) ≡ slots_of (slice_get self.old.pages.items n) }
        ensures count { OnOk result (count ≤ vec_len self.new.pages) }
        ensures ready { count ≤ vec_len self.old.pages → IsOk result }
        ensures most { length self.new.pages.items ≤ max (length self.old.pages.items) count }
        ensures limit { self.new.limit ≡ self.old.limit }
    {
        let alloc = *self.pages.allocator();
        for _ in self.pages.len()..count {
            self.pages.push(Vec::new(alloc))?;
        }
        Ok(())
    }

    fn make_page(&mut self, number: usize) -> Result<(), AllocError>
        requires { number < vec_len self.old.pages }
        ensures harts { self.new.harts ≡ self.old.harts }
        ensures epochs { self.new.epochs ≡ self.old.epochs }
        ensures count { vec_len self.new.pages ≡ vec_len self.old.pages }
        ensures same { (w : ℕ) → kept_in self.new w ≡ kept_in self.old w }
        ensures stays { (w : ℕ) → IsTrue (has_room self.old w) → IsTrue (has_room self.new w) }
        ensures room { OnOk result ((w : ℕ) → w / 256 ≡ number → IsTrue (has_room self.new w)) }
        ensures ready { ((w : ℕ) → w / 256 ≡ number → IsTrue (has_room self.old w)) → IsOk result }
        ensures others { (page : ℕ) → page ≢ number → size_of self.new page ≡ size_of self.old page }
        ensures limit { self.new.limit ≡ self.old.limit }
    {
        let slots = 64 * (self.harts as usize + 1);
        make_slots(&mut self.pages[number], slots)
    }

    /// The hart has these times of the others now: in its present epoch, or in a new one if `learns` says that they
    /// have changed. There is room for that. What is kept stays, and so do pages.
    pub fn go_on(&mut self, hart: HartId, learns: bool, times: &Times)
        requires hart { hart < HARTS }
        requires room { learns ≡ true → IsTrue (has_epoch self.old.epochs) }
        requires same { learns ≡ false → (h : ℕ) → h ≢ hart → present_counts self.old.epochs hart h ≡ count_of times.now h }
        ensures harts { self.new.harts ≡ self.old.harts }
        ensures pages { self.new.pages ≡ self.old.pages }
        ensures kept { (w : ℕ) → kept_in self.new w ≡ kept_in self.old w }
        ensures own { (h : ℕ) → h ≢ hart → present_counts self.new.epochs hart h ≡ count_of times.now h }
        ensures others { (g : ℕ) → g ≢ hart → (h : ℕ) → present_counts self.new.epochs g h ≡ present_counts self.old.epochs g h }
        ensures size { IsAsLarge self.old self.new }
    {
        if learns {
            self.epochs.begin(hart, times);
        }
    }

    /// Keeps an access of `count` words from `first` by the hart in its present epoch, in the place of
    /// those that it puts out. `after` is the count after its point.
    pub fn keep(&mut self, first: Addr, count: u32, hart: HartId, mode: Mode, turn: u64, after: Ic)
        requires aligned { first % 4 ≡ 0 }
        requires range { first + 4 * count ≤ 2 ^ 32 }
        requires hart { hart < self.old.harts }
        requires after { 0 < after }
        requires pages { 1 < self.old.harts → HasPages self.old first count }
        ensures harts { self.new.harts ≡ self.old.harts }
        ensures epochs { self.new.epochs ≡ self.old.epochs }
        ensures many { 1 < self.old.harts → KeepsAccess (kept_now self.old.epochs mode hart turn after) first count (kept_in self.old) (kept_in self.new) }
        ensures alone { self.old.harts ≤ 1 → (w : ℕ) → kept_in self.new w ≡ kept_in self.old w }
        ensures size { IsAsLarge self.old self.new }
    {
        let slot = Slot {
            turn,
            after,
            epoch: self.epochs.present[hart as usize],
            hart,
        };
        if self.harts > 1 {
            self.keep_each(first, count, mode, &slot);
        }
    }

    // Keeps an access of `count` words from `first`.
    fn keep_each(&mut self, first: Addr, count: u32, mode: Mode, slot: &Slot)
        requires aligned { first % 4 ≡ 0 }
        requires range { first + 4 * count ≤ 2 ^ 32 }
        requires hart { slot.now.hart < self.old.harts }
        requires after { 0 < slot.now.after }
        requires settled { IsTrue (is_settled self.old.epochs.table.items self.old.epochs.next slot.now.epoch) }
        requires pages { HasPages self.old first count }
        ensures harts { self.new.harts ≡ self.old.harts }
        ensures epochs { self.new.epochs ≡ self.old.epochs }
        ensures kept { KeepsAccess (kept_of_slot self.old.epochs mode slot.now) first count (kept_in self.old) (kept_in self.new) }
        ensures size { IsAsLarge self.old self.new }
    {
        for i in 0..count {
            self.keep_at(first + 4 * i, mode, slot);
        }
    }

    // Keeps an access of the word, in place of those that it puts out. The word's page is there, and the slot's epoch
    // counts as used. In a slot that is empty `after` is 0.
    fn keep_at(&mut self, word: Addr, mode: Mode, slot: &Slot)
        requires aligned { word % 4 ≡ 0 }
        requires hart { slot.now.hart < self.old.harts }
        requires after { 0 < slot.now.after }
        requires settled { IsTrue (is_settled self.old.epochs.table.items self.old.epochs.next slot.now.epoch) }
        requires room { IsTrue (has_room self.old word) }
        ensures harts { self.new.harts ≡ self.old.harts }
        ensures epochs { self.new.epochs ≡ self.old.epochs }
        ensures kept { Replaces (kept_of_slot self.old.epochs mode slot.now) (kept_in self.old word) (kept_in self.new word) }
        ensures others { (w : ℕ) → w ≢ word → kept_in self.new w ≡ kept_in self.old w }
        ensures room { (w : ℕ) → has_room self.new w ≡ has_room self.old w }
        ensures size { IsAsLarge self.old self.new }
    {
        let at = self.place(word);
        let harts = self.harts;
        keep_in(
            &mut self.pages[(word / PAGE_BYTES) as usize],
            at,
            harts,
            mode,
            slot,
        );
    }
}
