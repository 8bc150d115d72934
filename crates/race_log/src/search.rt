//! The search for an access's edges among the accesses that are kept of its words.
ghost use Rattle.std.specs.Prelude.{◌≡◌, ◌+◌, ◌*◌, ◌<◌, ◌≤◌, ◌^◌, ◌%◌, ℕ, true, None, length, slice_get};
ghost use Rattle.vector_time.specs.Times.{count_of};
ghost use Rattle.bn_base.specs.declared.settings.TheConstants.{HARTS};
ghost use Rattle.race_log.specs.Search.{gathered, latest, newer, sources, counts_after};
ghost use Rattle.race_log.specs.Slots.{kept_here, write_in, read_in, reads_in, word_in, found_as};
ghost use Rattle.race_log.specs.Words.{kept_in, epoch_counts};

use crate::edges::Edges;
use crate::mode::Mode;
use crate::slot::{FoundAccess, Slot};
use crate::words::KeptWords;
use bn_base::{Addr, HartId};
use vector_time::Times;

// Whether the turn is later than the best one's, if there is one.
fn is_newer(best: &Option<FoundAccess>, turn: u64) -> bool
    ensures { (counts : ℕ → ℕ → ℕ) → result ≡ newer (found_as counts best.now) turn }
{
    match best {
        None => true,
        Some(found) => found.turn < turn,
    }
}

// What the slot keeps, as an access of the hart `other`, if that is a later source than the best one;
// else the best one.
fn later_of(
    best: Option<FoundAccess>,
    times: &Times,
    hart: HartId,
    writes: bool,
    mode: Mode,
    other: HartId,
    slot: &Slot,
) -> Option<FoundAccess>
    requires { other < HARTS }
    ensures { (counts : ℕ → ℕ → ℕ) → found_as counts result ≡ latest hart writes (count_of times.now) (found_as counts best) (kept_here counts mode other slot.now) }
{
    if slot.after > 0
        && other != hart
        && (mode.is_write() || writes)
        && !times.covers(other, slot.after - 1)
        && is_newer(&best, slot.turn)
    {
        Some(FoundAccess {
            turn: slot.turn,
            after: slot.after,
            epoch: slot.epoch,
            hart: other,
            mode,
        })
    } else {
        best
    }
}

// The latest of the best source and the write in a word's first slot.
fn later_write(
    best: Option<FoundAccess>,
    times: &Times,
    hart: HartId,
    writes: bool,
    page: &[Slot],
    at: usize,
) -> Option<FoundAccess>
    ensures { (counts : ℕ → ℕ → ℕ) → found_as counts result ≡ latest hart writes (count_of times.now) (found_as counts best) (write_in counts (slice_get page.now at)) }
{
    match page.get(at) {
        None => best,
        Some(slot) => later_of(best, times, hart, writes, Mode::Write, slot.hart, slot),
    }
}

// The latest of the best source for a write and the read in the slot of the hart `other`.
fn later_read(
    best: Option<FoundAccess>,
    times: &Times,
    hart: HartId,
    other: HartId,
    page: &[Slot],
    at: usize,
) -> Option<FoundAccess>
    requires { other < HARTS }
    ensures { (counts : ℕ → ℕ → ℕ) → found_as counts result ≡ latest hart true (count_of times.now) (found_as counts best) (read_in counts other (slice_get page.now at)) }
{
    match page.get(at) {
        None => best,
        Some(slot) => later_of(best, times, hart, true, Mode::Read, other, slot),
    }
}

// The latest source for a write among the reads that are kept of a word, whose slots begin at `at`.
#[tactic(auto, using(crate::proofs::SlotLemmas::reads_step))]
fn latest_read(
    best: Option<FoundAccess>,
    times: &Times,
    hart: HartId,
    harts: HartId,
    page: &[Slot],
    at: usize,
) -> Option<FoundAccess>
    requires harts { harts ≤ HARTS }
    requires at { at < 2 ^ 32 }
    ensures { (counts : ℕ → ℕ → ℕ) → found_as counts result ≡ latest hart true (count_of times.now) (found_as counts best) (reads_in counts page.now at 0 harts) }
{
    let mut best = best;
    for other in 0..harts {
        best = later_read(best, times, hart, other, page, at + other as usize);
    }
    best
}

// The latest source among what is kept of the word whose slots begin at `at`.
fn latest_of(
    best: Option<FoundAccess>,
    times: &Times,
    hart: HartId,
    writes: bool,
    harts: HartId,
    page: &[Slot],
    at: usize,
) -> Option<FoundAccess>
    requires harts { harts ≤ HARTS }
    requires at { at < 2 ^ 31 }
    ensures { (counts : ℕ → ℕ → ℕ) → found_as counts result ≡ latest hart writes (count_of times.now) (found_as counts best) (word_in counts harts page.now at) }
{
    let best = later_write(best, times, hart, writes, page, at);
    if writes {
        latest_read(best, times, hart, harts, page, at + 1)
    } else {
        best
    }
}

// The latest source among what is kept of `count` words from `first`.
fn latest_in(
    words: &KeptWords,
    times: &Times,
    hart: HartId,
    writes: bool,
    first: Addr,
    count: u32,
) -> Option<FoundAccess>
    requires aligned { first % 4 ≡ 0 }
    requires range { first + 4 * count ≤ 2 ^ 32 }
    ensures { found_as (epoch_counts words.now.epochs) result ≡ latest hart writes (count_of times.now) None (gathered (kept_in words.now) first count) }
{
    let mut best = None;
    for i in 0..count {
        let word = first + 4 * i;
        best = latest_of(
            best,
            times,
            hart,
            writes,
            words.harts,
            words.page(word),
            words.place(word),
        );
    }
    best
}

/// Puts into `edges`, in place of what it had, the sources of the edges into an access by `hart` of the `count` words
/// from address `first`, at most `most` of them. Each is the latest conflicting access of another hart that the vector
/// clock `times` doesn't include. That is merged with the clock after each, so no later source is implied by one before.
pub fn find_sources(
    words: &KeptWords,
    times: &mut Times,
    edges: &mut Edges,
    hart: HartId,
    writes: bool,
    first: Addr,
    count: u32,
    most: usize,
)
    requires aligned { first % 4 ≡ 0 }
    requires range { first + 4 * count ≤ 2 ^ 32 }
    requires most { most < HARTS }
    ensures sources { edges.new ≡ sources hart writes most (count_of times.old) (gathered (kept_in words.now) first count) }
    ensures counts { (h : ℕ) → count_of times.new h
        ≡ counts_after hart writes most (count_of times.old) (gathered (kept_in words.now) first count) h }
    ensures few { length edges.new ≤ most }
    ensures none { length edges.new ≡ 0 → (h : ℕ) → count_of times.new h ≡ count_of times.old h }
{
    edges.clear();
    for round in 0..most {
        match latest_in(words, times, hart, writes, first, count) {
            None => break,
            Some(k) => {
                edges.push(k.hart, k.after - 1);
                words.epochs.merge_after(times, k.epoch, k.hart, k.after);
            }
        }
    }
}
