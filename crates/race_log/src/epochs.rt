//! The vector times that kept accesses share: one for each epoch of a hart, so that no access keeps times of its own.
ghost use Rattle.std.specs.Prelude.{◌≡◌, ◌≢◌, ◌+◌, ◌⊎◌, ◌<◌, ◌≤◌, ◌^◌, ℕ, max, length, IfOk, OnOk, IsOk, IsTrue, slice_get, true, false};
ghost use Rattle.bn_base.specs.declared.settings.TheConstants.{HARTS};
ghost use Rattle.race_log.specs.Slots.{is_settled, AreSettledNow};

use bn_base::{HARTS, HartId, Ic};
use std::alloc::{AllocError, Global};
use vector_time::Times;

/// An epoch of a hart: its points from one edge into the hart up to the next, in which it learns of no
/// point of another hart.
#[derive(Clone, Copy)]
pub struct Epoch {
    /// The hart's times in it, but for its own count.
    pub times: Times,
    /// Whether something named it when the table was last looked through.
    pub used: bool,
}

/// The epochs that a kept access names or that are a hart's present one. So the times of a point
/// are there once for all its words, and once for all points that share them.
// A table of times for each point was measured to be slower. Counts of who names an epoch, in place of marks,
// took more proof.
#[derive(Drop)]
pub struct Epochs {
    pub table: Vec<Epoch>,
    pub next: u32,
    pub present: [u32; HARTS],
    ghost each_hart: { length present ≡ HARTS },
    ghost within: { next ≤ length table.items },
    ghost first: { IsTrue (is_settled table.items next 0) },
    ghost few: { length table.items < 2 ^ 32 },
    ghost settled: { AreSettledNow table.items next present },
}

impl Epochs {
    ghost use Rattle.vector_time.specs.Times.{count_of};
    ghost use Rattle.race_log.specs.Slots.{counts_past, is_marked, marks_in};
    ghost use Rattle.race_log.specs.Words.{epoch_counts, epoch_of, present_counts, has_epoch, AreAllUsed};

    /// One epoch, in which each hart is and knows of no point.
    pub fn new(alloc: Global) -> Result<Epochs, AllocError>
        ensures counts { IfOk result (λ s. (epoch h : ℕ) → epoch_counts s epoch h ≡ 0) }
        ensures one { IfOk result (λ s. length s.table.items ≡ 1) }
    {
        let mut table = Vec::new(alloc);
        table.push(Epoch {
            times: Times::new(),
            used: false,
        })?;
        Ok(Epochs {
            table,
            next: 1,
            present: [0; HARTS],
        })
    }

    /// Makes room for one epoch more. All epochs stay.
    pub fn make_room(&mut self) -> Result<(), AllocError>
        ensures counts { (epoch h : ℕ) → epoch_counts self.new epoch h ≡ epoch_counts self.old epoch h }
        ensures present { self.new.present ≡ self.old.present }
        ensures settled { (i : ℕ) → IsTrue (is_settled self.old.table.items self.old.next i) → IsTrue (is_settled self.new.table.items self.new.next i) }
        ensures room { OnOk result (IsTrue (has_epoch self.new)) }
        ensures ready { IsTrue (has_epoch self.old) → IsOk result }
        ensures grows { (length self.new.table.items ≡ length self.old.table.items) ⊎ (AreAllUsed self.old × (length self.new.table.items ≡ length self.old.table.items + 1)) }
    {
        self.pass_used();
        if (self.next as usize) < self.table.len() {
            return Ok(());
        }
        self.grow()
    }

    /// Whether an epoch can begin without memory.
    #[inline(always)]
    pub fn has_next(&self) -> bool
        ensures { result ≡ has_epoch self.now }
    {
        match self.table.get(self.next as usize) {
            Some(epoch) => !epoch.used,
            None => false,
        }
    }

    // Moves to the first epoch that isn't used.
    fn pass_used(&mut self)
        ensures table { self.new.table ≡ self.old.table }
        ensures present { self.new.present ≡ self.old.present }
        ensures settled { (i : ℕ) → IsTrue (is_settled self.old.table.items self.old.next i) → IsTrue (is_settled self.new.table.items self.new.next i) }
        ensures room { self.new.next < length self.new.table.items → IsTrue (has_epoch self.new) }
        ensures ready { IsTrue (has_epoch self.old) → self.new.next ≡ self.old.next }
        ensures passed { (i : ℕ) → self.old.next ≤ i → i < self.new.next → IsTrue (is_marked (slice_get self.old.table.items i)) }
    {
        for place in self.next as usize..self.table.len() {
            if !self.table[place].used {
                break;
            }
            self.next += 1;
        }
    }

    // Adds an epoch to the table that nothing uses.
    fn grow(&mut self) -> Result<(), AllocError>
        requires { self.old.next ≡ length self.old.table.items }
        ensures counts { (epoch h : ℕ) → epoch_counts self.new epoch h ≡ epoch_counts self.old epoch h }
        ensures present { self.new.present ≡ self.old.present }
        ensures settled { (i : ℕ) → IsTrue (is_settled self.old.table.items self.old.next i) → IsTrue (is_settled self.new.table.items self.new.next i) }
        ensures room { OnOk result (IsTrue (has_epoch self.new)) }
        ensures grows { (length self.new.table.items ≡ length self.old.table.items) ⊎ (length self.new.table.items ≡ length self.old.table.items + 1) }
    {
        if self.table.len() >= u32::MAX as usize {
            return Err(AllocError);
        }
        self.table.push(Epoch {
            times: Times::new(),
            used: false,
        })?;
        Ok(())
    }

    /// How many epochs the table has.
    pub fn len(&self) -> usize
        ensures { result ≡ length self.now.table.items }
    {
        self.table.len()
    }

    /// How many of them are marked as used.
    pub fn used(&self) -> usize
        ensures value { result ≡ marks_in self.now.table.items }
        ensures most { result ≤ length self.now.table.items }
    {
        self.table.iter().filter(|epoch| epoch.used).count()
    }

    /// Whether no epoch can begin but by growth.
    pub fn is_full(&mut self) -> bool
        ensures counts { (epoch h : ℕ) → epoch_counts self.new epoch h ≡ epoch_counts self.old epoch h }
        ensures present { self.new.present ≡ self.old.present }
        ensures settled { (i : ℕ) → IsTrue (is_settled self.old.table.items self.old.next i) → IsTrue (is_settled self.new.table.items self.new.next i) }
        ensures table { self.new.table ≡ self.old.table }
        ensures full { result ≡ true → self.new.next ≡ length self.new.table.items }
        ensures left { result ≡ false → IsTrue (has_epoch self.new) }
        ensures room { IsTrue (has_epoch self.old) → IsTrue (has_epoch self.new) × (result ≡ false) }
    {
        self.pass_used();
        self.next as usize == self.table.len()
    }

    // Takes the marks off all epochs. All stay pinned, since the next one stands at the table's end.
    fn unmark(&mut self)
        requires full { self.old.next ≡ length self.old.table.items }
        ensures counts { (epoch h : ℕ) → epoch_counts self.new epoch h ≡ epoch_counts self.old epoch h }
        ensures present { self.new.present ≡ self.old.present }
        ensures full { (self.new.next ≡ self.old.next) × (length self.new.table.items ≡ length self.old.table.items) }
        ensures none { marks_in self.new.table.items ≡ 0 }
    {
        for place in 0..self.table.len() {
            self.table[place].used = false;
        }
    }

    /// Marks an epoch of the table as used.
    pub fn mark(&mut self, epoch: u32)
        requires full { self.old.next ≡ length self.old.table.items }
        ensures counts { (i h : ℕ) → epoch_counts self.new i h ≡ epoch_counts self.old i h }
        ensures present { self.new.present ≡ self.old.present }
        ensures full { (self.new.next ≡ self.old.next) × (length self.new.table.items ≡ length self.old.table.items) }
        ensures marks { (i : ℕ) → IsTrue (is_marked (slice_get self.old.table.items i)) → IsTrue (is_marked (slice_get self.new.table.items i)) }
        ensures marked { epoch < length self.old.table.items → IsTrue (is_marked (slice_get self.new.table.items epoch)) }
        ensures few { marks_in self.new.table.items ≤ marks_in self.old.table.items + 1 }
    {
        if (epoch as usize) < self.table.len() {
            self.table[epoch as usize].used = true;
        }
    }

    /// Marks the harts' present epochs as used, and no other.
    pub fn begin_marks(&mut self)
        requires full { self.old.next ≡ length self.old.table.items }
        ensures counts { (epoch h : ℕ) → epoch_counts self.new epoch h ≡ epoch_counts self.old epoch h }
        ensures present { self.new.present ≡ self.old.present }
        ensures full { (self.new.next ≡ self.old.next) × (length self.new.table.items ≡ length self.old.table.items) }
        ensures marked { (hart : ℕ) → IsTrue (is_marked (slice_get self.new.table.items (epoch_of self.new hart))) }
        ensures first { IsTrue (is_marked (slice_get self.new.table.items 0)) }
        ensures few { marks_in self.new.table.items ≤ HARTS + 1 }
    {
        self.unmark();
        self.mark(0);
        for hart in 0..HARTS {
            self.mark(self.present[hart]);
        }
    }

    /// Lets epochs begin from the start of the table on, in the place of those that aren't marked.
    pub fn restart(&mut self)
        requires present { (hart : ℕ) → IsTrue (is_marked (slice_get self.old.table.items (epoch_of self.old hart))) }
        requires first { IsTrue (is_marked (slice_get self.old.table.items 0)) }
        ensures counts { (epoch h : ℕ) → epoch_counts self.new epoch h ≡ epoch_counts self.old epoch h }
        ensures present { self.new.present ≡ self.old.present }
        ensures settled { (i : ℕ) → IsTrue (is_marked (slice_get self.old.table.items i)) → IsTrue (is_settled self.new.table.items self.new.next i) }
        ensures table { self.new.table ≡ self.old.table }
        ensures start { self.new.next ≡ 0 }
    {
        self.next = 0;
    }

    /// Begins an epoch of the hart with these times.
    pub fn begin(&mut self, hart: HartId, times: &Times)
        requires hart { hart < HARTS }
        requires room { IsTrue (has_epoch self.old) }
        ensures counts { (i : ℕ) → IsTrue (is_settled self.old.table.items self.old.next i) → (h : ℕ) → epoch_counts self.new i h ≡ epoch_counts self.old i h }
        ensures settled { (i : ℕ) → IsTrue (is_settled self.old.table.items self.old.next i) → IsTrue (is_settled self.new.table.items self.new.next i) }
        ensures present { (h : ℕ) → present_counts self.new hart h ≡ count_of times.now h }
        ensures others { (g : ℕ) → g ≢ hart → epoch_of self.new g ≡ epoch_of self.old g }
        ensures size { length self.new.table.items ≡ length self.old.table.items }
    {
        self.table[self.next as usize].times = *times;
        self.present[hart as usize] = self.next;
        self.next += 1;
    }

    /// Takes into other times those after a point of the hart in an epoch; `after` is the count after the point. They are
    /// read in place: the processor would wait for a copy in which one count was just written.
    #[inline(always)]
    pub fn merge_after(&self, times: &mut Times, epoch: u32, hart: HartId, after: Ic)
        requires { hart < HARTS }
        ensures { (h : ℕ) → count_of times.new h ≡ max (count_of times.old h) (counts_past (epoch_counts self.now epoch) hart after h) }
    {
        match self.table.get(epoch as usize) {
            Some(epoch) => times.merge_but(&epoch.times, hart, after),
            None => times.merge_but(&Times::new(), hart, after),
        }
    }
}
