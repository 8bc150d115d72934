//! What is given up of a page, and how many accesses it keeps.
ghost use Rattle.std.specs.Prelude.{◌≡◌, ◌≢◌, ◌+◌, ◌-◌, ◌*◌, ◌<◌, ◌≤◌, ◌^◌, ◌⊎◌, ◌&&◌, ◌||◌, not, ℕ, Some, length, nat_lt, slice_get, vec_len};
ghost use Rattle.bn_base.specs.declared.settings.TheConstants.{HARTS};
ghost use Rattle.race_log.specs.declared.mode.Mode.{Mode};
ghost use Rattle.race_log.specs.declared.slot.Slot.{Slot};
ghost use Rattle.race_log.specs.Slots.{kept_here, write_in, read_in, reads_in, word_in, StaysSettled};
ghost use Rattle.vector_time.specs.Times.{count_of};
ghost use Rattle.race_log.specs.Sweep.{has_bit, is_covered, uncovered, GivesUp, sum_below};

use crate::slot::Slot;
use bn_base::{HartId, Ic};
use vector_time::Times;

/// Whether a set of harts, one bit for each, has the hart.
pub fn has_bit(set: u16, hart: HartId) -> bool
    requires { hart < HARTS }
    ensures { result ≡ has_bit set hart }
{
    (set >> hart) % 2 == 1
}

/// The times, with each hart's lower count of the two if the other times count too.
pub fn least_with(least: Option<Times>, times: &Times, counts: bool) -> Option<Times>
    ensures { (hart count : ℕ) → is_covered result hart count ≡ (is_covered least hart count && (not counts || nat_lt count (count_of times.now hart))) }
{
    if !counts {
        return least;
    }
    match least {
        None => Some(*times),
        Some(mut met) => {
            met.meet(times);
            Some(met)
        }
    }
}

// Whether the times cover the hart's point at the count; without times each point is covered.
fn is_covered(times: &Option<Times>, hart: HartId, ic: Ic) -> bool
    requires { hart < HARTS }
    ensures { result ≡ is_covered times.now hart ic }
{
    match times {
        None => true,
        Some(times) => times.covers(hart, ic),
    }
}

// Whether a slot keeps something, and as an access of the hart `other` the times cover it.
fn is_known(slot: &Slot, other: HartId, known: &Option<Times>) -> bool
    requires { other < HARTS }
    ensures { result ≡ (nat_lt 0 slot.now.after && is_covered known.now other (slot.now.after - 1)) }
{
    slot.after > 0 && is_covered(known, other, slot.after - 1)
}

// Gives up what a slot keeps, as an access of the hart `other`, if the times cover it; how many are given up.
// An emptied slot names epoch 0: so an epoch that only accesses given up here named can be used again.
fn give_up(slot: &mut Slot, other: HartId, known: &Option<Times>) -> u64
    requires { other < HARTS }
    ensures kept { (counts : ℕ → ℕ → ℕ) (mode : Mode) → GivesUp known.now result (kept_here counts mode other slot.old) (kept_here counts mode other slot.new) }
    ensures few { result ≤ 1 }
    ensures slot { (slot.new ≡ slot.old) ⊎ ((slot.new.after ≡ 0) × (slot.new.epoch ≡ 0)) }
{
    let known = is_known(slot, other, known);
    if known {
        *slot = Slot::empty();
        1
    } else {
        0
    }
}

// Gives up the write in a word's first slot, if the times cover it; how many are given up.
fn give_up_write(page: &mut Vec<Slot>, at: usize, known: &Option<Times>) -> u64
    requires within { at < vec_len page.old }
    ensures len { length page.new.items ≡ length page.old.items }
    ensures kept { (counts : ℕ → ℕ → ℕ) → GivesUp known.now result (write_in counts (slice_get page.old.items at)) (write_in counts (slice_get page.new.items at)) }
    ensures few { result ≤ 1 }
    ensures others { (j : ℕ) → j ≢ at → slice_get page.new.items j ≡ slice_get page.old.items j }
    ensures settled { StaysSettled page.old.items page.new.items 0 }
{
    let hart = page[at].hart;
    give_up(&mut page[at], hart, known)
}

// Gives up the read in the slot of the hart `other`, if the times cover it; how many are given up.
fn give_up_read(page: &mut Vec<Slot>, at: usize, other: HartId, known: &Option<Times>) -> u64
    requires within { at < vec_len page.old }
    requires hart { other < HARTS }
    ensures len { length page.new.items ≡ length page.old.items }
    ensures kept { (counts : ℕ → ℕ → ℕ) → GivesUp known.now result (read_in counts other (slice_get page.old.items at)) (read_in counts other (slice_get page.new.items at)) }
    ensures few { result ≤ 1 }
    ensures others { (j : ℕ) → j ≢ at → slice_get page.new.items j ≡ slice_get page.old.items j }
    ensures settled { StaysSettled page.old.items page.new.items 0 }
{
    give_up(&mut page[at], other, known)
}

// Gives up the reads of a word that the times cover; their slots begin at `at`. How many are given up.
fn give_up_reads(page: &mut Vec<Slot>, at: usize, harts: HartId, known: &Option<Times>) -> u64
    requires within { at + harts ≤ vec_len page.old }
    requires harts { harts ≤ HARTS }
    ensures len { length page.new.items ≡ length page.old.items }
    ensures kept { (counts : ℕ → ℕ → ℕ) → GivesUp known.now result (reads_in counts page.old.items at 0 harts) (reads_in counts page.new.items at 0 harts) }
    ensures few { result ≤ harts }
    ensures below { (j : ℕ) → j < at → slice_get page.new.items j ≡ slice_get page.old.items j }
    ensures above { (j : ℕ) → at + harts ≤ j → slice_get page.new.items j ≡ slice_get page.old.items j }
    ensures settled { StaysSettled page.old.items page.new.items 0 }
{
    let mut gone = 0u64;
    for other in 0..harts {
        gone += give_up_read(page, at + other as usize, other, known);
    }
    gone
}

// Gives up what the times cover of the word whose slots begin at `at`, and answers how many accesses.
fn give_up_word(page: &mut Vec<Slot>, at: usize, harts: HartId, known: &Option<Times>) -> u64
    requires within { at + harts < vec_len page.old }
    requires harts { harts ≤ HARTS }
    ensures len { length page.new.items ≡ length page.old.items }
    ensures kept { (counts : ℕ → ℕ → ℕ) → GivesUp known.now result (word_in counts harts page.old.items at) (word_in counts harts page.new.items at) }
    ensures few { result ≤ harts + 1 }
    ensures below { (counts : ℕ → ℕ → ℕ) (place : ℕ) → place + harts < at → word_in counts harts page.new.items place ≡ word_in counts harts page.old.items place }
    ensures above { (counts : ℕ → ℕ → ℕ) (place : ℕ) → at + harts < place → word_in counts harts page.new.items place ≡ word_in counts harts page.old.items place }
    ensures settled { StaysSettled page.old.items page.new.items 0 }
{
    let write = give_up_write(page, at, known);
    let reads = give_up_reads(page, at + 1, harts, known);
    write + reads
}

/// Gives up what the times cover of the words of a page, and answers how many accesses.
pub fn give_up_page(page: &mut Vec<Slot>, harts: HartId, known: &Option<Times>) -> u64
    requires harts { harts ≤ HARTS }
    requires full { 0 < vec_len page.old → vec_len page.old ≡ 64 * (harts + 1) }
    ensures len { length page.new.items ≡ length page.old.items }
    ensures kept { (counts : ℕ → ℕ → ℕ) (n : ℕ) → n < 64 → word_in counts harts page.new.items (n * (harts + 1)) ≡ uncovered known.now (word_in counts harts page.old.items (n * (harts + 1))) }
    ensures gone { (counts : ℕ → ℕ → ℕ) → result + sum_below (λ n. length (word_in counts harts page.new.items (n * (harts + 1)))) 64
        ≡ sum_below (λ n. length (word_in counts harts page.old.items (n * (harts + 1)))) 64 }
    ensures few { result ≤ 64 * (HARTS + 1) }
    ensures settled { StaysSettled page.old.items page.new.items 0 }
{
    if page.is_empty() {
        return 0;
    }
    let mut gone = 0u64;
    for word in 0..64usize {
        gone += give_up_word(page, word * (harts as usize + 1), harts, known);
    }
    gone
}

// How many accesses a slot keeps.
fn held_in(slot: &Slot) -> u64
    ensures held { (counts : ℕ → ℕ → ℕ) (mode : Mode) (other : ℕ) → result ≡ length (kept_here counts mode other slot.now) }
    ensures few { result ≤ 1 }
{
    if slot.after > 0 { 1 } else { 0 }
}

// How many accesses the first slot of a word keeps.
fn held_write(page: &[Slot], at: usize) -> u64
    ensures held { (counts : ℕ → ℕ → ℕ) → result ≡ length (write_in counts (slice_get page.now at)) }
    ensures few { result ≤ 1 }
{
    match page.get(at) {
        None => 0,
        Some(slot) => held_in(slot),
    }
}

// How many accesses the slot of a hart's read keeps.
fn held_read(page: &[Slot], at: usize) -> u64
    ensures held { (counts : ℕ → ℕ → ℕ) (other : ℕ) → result ≡ length (read_in counts other (slice_get page.now at)) }
    ensures few { result ≤ 1 }
{
    match page.get(at) {
        None => 0,
        Some(slot) => held_in(slot),
    }
}

// How many reads are kept of a word; their slots begin at `at`.
fn held_reads(page: &[Slot], at: usize, harts: HartId) -> u64
    requires { at < 2 ^ 32 }
    ensures held { (counts : ℕ → ℕ → ℕ) → result ≡ length (reads_in counts page.now at 0 harts) }
    ensures few { result ≤ harts }
{
    let mut held = 0u64;
    for other in 0..harts {
        held += held_read(page, at + other as usize);
    }
    held
}

// How many accesses are kept of the word whose slots begin at `at`.
fn held_word(page: &[Slot], at: usize, harts: HartId) -> u64
    requires { at < 2 ^ 31 }
    ensures held { (counts : ℕ → ℕ → ℕ) → result ≡ length (word_in counts harts page.now at) }
    ensures few { result ≤ harts + 1 }
{
    held_write(page, at) + held_reads(page, at + 1, harts)
}

/// How many accesses are kept of the words of a page.
pub fn held_page(page: &[Slot], harts: HartId) -> u64
    requires { harts ≤ HARTS }
    ensures held { (counts : ℕ → ℕ → ℕ) → result ≡ sum_below (λ n. length (word_in counts harts page.now (n * (harts + 1)))) 64 }
    ensures few { result ≤ 64 * (HARTS + 1) }
{
    if page.is_empty() {
        return 0;
    }
    let mut held = 0u64;
    for word in 0..64usize {
        held += held_word(page, word * (harts as usize + 1), harts);
    }
    held
}
