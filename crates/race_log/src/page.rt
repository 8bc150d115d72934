//! The slots of a page: for each of its words one for a write, and after it one for a read of each hart.
ghost use Rattle.std.specs.Prelude.{◌≡◌, ◌+◌, ◌<◌, ◌≤◌, ℕ, Some, IsOk, OnOk, IsTrue, length, slice_get, vec_len};
ghost use Rattle.race_log.specs.Slots.{word_in, is_marked, marks_in, KeepsIn, StaysSettled};
ghost use Rattle.race_log.specs.Words.{epoch_counts};
ghost use Rattle.race_log.specs.declared.slot.Slot.{Slot};

use crate::epochs::Epochs;
use crate::mode::Mode;
use crate::slot::Slot;
use bn_base::HartId;
use std::alloc::AllocError;

/// Gives a page its slots, which keep nothing, if it has none.
pub fn make_slots(page: &mut Vec<Slot>, count: usize) -> Result<(), AllocError>
    ensures stays { 0 < vec_len page.old → page.new.items ≡ page.old.items }
    ensures none { vec_len page.old ≡ 0 → (at : ℕ) (s : Slot) → slice_get page.new.items at ≡ Some s → (s.after ≡ 0) × (s.epoch ≡ 0) }
    ensures count { OnOk result (vec_len page.old ≡ 0 → length page.new.items ≡ count) }
    ensures full { vec_len page.old ≡ 0 → 0 < length page.new.items → length page.new.items ≡ count }
    ensures ready { 0 < vec_len page.old → IsOk result }
{
    if page.is_empty() {
        let alloc = *page.allocator();
        *page = vec![in alloc; Slot::empty(); count]?;
    }
    Ok(())
}

/// Keeps an access of the word whose slots begin at `at`.
pub fn keep_in(page: &mut Vec<Slot>, at: usize, harts: HartId, mode: Mode, slot: &Slot)
    requires within { at + harts < vec_len page.old }
    requires hart { slot.now.hart < harts }
    requires after { 0 < slot.now.after }
    ensures len { length page.new.items ≡ length page.old.items }
    ensures kept { KeepsIn harts page.old.items page.new.items at mode slot.now }
    ensures below { (counts : ℕ → ℕ → ℕ) (place : ℕ) → place + harts < at → word_in counts harts page.new.items place ≡ word_in counts harts page.old.items place }
    ensures above { (counts : ℕ → ℕ → ℕ) (place : ℕ) → at + harts < place → word_in counts harts page.new.items place ≡ word_in counts harts page.old.items place }
    ensures settled { StaysSettled page.old.items page.new.items slot.now.epoch }
{
    match mode {
        Mode::Read => page[at + 1 + slot.hart as usize] = *slot,
        Mode::Write => write_in(page, at, harts, slot),
    }
}

// Keeps a write in the first slot of a word, and nothing in the others.
fn write_in(page: &mut Vec<Slot>, at: usize, harts: HartId, slot: &Slot)
    requires within { at + harts < vec_len page.old }
    ensures len { length page.new.items ≡ length page.old.items }
    ensures own { slice_get page.new.items at ≡ Some slot.now }
    ensures none { (j : ℕ) (s : Slot) → at < j → j ≤ at + harts → slice_get page.new.items j ≡ Some s → (s.after ≡ 0) × (s.epoch ≡ 0) }
    ensures below { (j : ℕ) → j < at → slice_get page.new.items j ≡ slice_get page.old.items j }
    ensures above { (j : ℕ) → at + harts < j → slice_get page.new.items j ≡ slice_get page.old.items j }
{
    page[at] = *slot;
    for hart in 0..harts as usize {
        page[at + 1 + hart] = Slot::empty();
    }
}

/// Marks the epochs that a page's slots name as used.
pub fn mark_page(epochs: &mut Epochs, page: &[Slot])
    requires full { epochs.old.next ≡ length epochs.old.table.items }
    ensures counts { (i h : ℕ) → epoch_counts epochs.new i h ≡ epoch_counts epochs.old i h }
    ensures present { epochs.new.present ≡ epochs.old.present }
    ensures full { (epochs.new.next ≡ epochs.old.next) × (length epochs.new.table.items ≡ length epochs.old.table.items) }
    ensures marks { (i : ℕ) → IsTrue (is_marked (slice_get epochs.old.table.items i)) → IsTrue (is_marked (slice_get epochs.new.table.items i)) }
    ensures marked { (at : ℕ) (s : Slot) → slice_get page.now at ≡ Some s → s.epoch < length epochs.old.table.items → IsTrue (is_marked (slice_get epochs.new.table.items s.epoch)) }
    ensures few { marks_in epochs.new.table.items ≤ marks_in epochs.old.table.items + length page.now }
{
    for slot in page {
        epochs.mark(slot.epoch);
    }
}
