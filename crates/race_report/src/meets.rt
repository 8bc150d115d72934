//! The races of a point with the points before it.
ghost use Rattle.std.specs.Prelude.{◌≡◌, ◌<◌, ◌≤◌, ◌%◌, ◌^◌, true, false, ℕ, List, length, OnOk};
ghost use Rattle.bn_base.specs.declared.settings.TheConstants.{HARTS};
ghost use Rattle.vector_time.specs.Times.{count_of};
ghost use Rattle.race_report.specs.Points.{words_from};
ghost use Rattle.race_report.specs.Tracks.{AreBelow, noted};
ghost use Rattle.race_report.specs.Found.{met_all, uncovered};
ghost use Rattle.race_report.specs.Kept.{IsTracked, lists_of};
ghost use Rattle.race_report.specs.Meets.{MetWord, MetWords};

use crate::race_lists::RaceLists;
use crate::touch::Touch;
use crate::track::Track;
use bn_base::{Addr, HartId};
use std::alloc::AllocError;
use vector_time::Times;

/// A point: its hart and place, and how many of each hart's points are ordered before it.
#[derive(Clone, Copy)]
pub(crate) struct Reached {
    pub(crate) hart: HartId,
    pub(crate) place: u32,
    pub(crate) known: Times,
}

// Its races with a hart's accesses of a word, from the latest on, as far as none is ordered before it.
fn meet_hart(
    track: &Track,
    found: &mut RaceLists,
    hart: HartId,
    word: Addr,
    point: &Reached,
) -> Result<(), AllocError>
    requires hart { hart < length track.now.heads.items }
    requires few { hart < HARTS }
    requires below { AreBelow (length (lists_of found.old)) track.now.entries.items }
    ensures same { length (lists_of found.new) ≡ length (lists_of found.old) }
    ensures met { OnOk result ((ps : List ℕ) → IsTracked track.now hart word ps → lists_of found.new ≡ met_all point.now.place word (uncovered (count_of point.now.known hart) ps) (lists_of found.old)) }
{
    let mut at = track.latest(hart, word);
    'back: loop {
        match at {
            None => return Ok(()),
            Some(number) => {
                let entry = track.entry(number);
                if point.known.covers(hart, u64::from(entry.place)) {
                    return Ok(());
                }
                found.meet(entry.place, point.place, word)?;
                at = entry.previous;
            }
        }
    }
}

// Its races with all other harts' accesses of a word.
fn meet_word(
    track: &Track,
    found: &mut RaceLists,
    harts: HartId,
    word: Addr,
    point: &Reached,
) -> Result<(), AllocError>
    requires harts { harts ≡ length track.now.heads.items }
    requires few { harts ≤ HARTS }
    requires below { AreBelow (length (lists_of found.old)) track.now.entries.items }
    ensures same { length (lists_of found.new) ≡ length (lists_of found.old) }
    ensures met { OnOk result (MetWord track.now harts word point.now found.old found.new) }
{
    for other in 0..harts {
        if other != point.hart {
            meet_hart(track, found, other, word, point)?;
        }
    }
    Ok(())
}

/// Its races with all other harts' accesses of its words.
pub(crate) fn meet_words(
    track: &Track,
    found: &mut RaceLists,
    harts: HartId,
    touch: Touch,
    point: &Reached,
) -> Result<(), AllocError>
    requires harts { harts ≡ length track.now.heads.items }
    requires few { harts ≤ HARTS }
    requires aligned { touch.first % 4 ≡ 0 }
    requires below { AreBelow (length (lists_of found.old)) track.now.entries.items }
    ensures same { length (lists_of found.new) ≡ length (lists_of found.old) }
    ensures met { OnOk result (MetWords track.now harts touch point.now found.old found.new) }
{
    let mut word = touch.first;
    for _ in 0..touch.count {
        meet_word(track, found, harts, word, point)?;
        word = word.wrapping_add(4);
    }
    Ok(())
}

/// Adds the accesses of a point's words.
pub(crate) fn note_words(
    track: &mut Track,
    touch: Touch,
    hart: HartId,
    place: u32,
) -> Result<(), AllocError>
    requires hart { hart < length track.old.heads.items }
    requires aligned { touch.first % 4 ≡ 0 }
    ensures harts { length track.new.heads.items ≡ length track.old.heads.items }
    ensures below { (count : ℕ) → place < count → AreBelow count track.old.entries.items → AreBelow count track.new.entries.items }
    ensures noted { OnOk result ((h w : ℕ) (ps : List ℕ) → w % 4 ≡ 0 → IsTracked track.old h w ps → IsTracked track.new h w (noted h w hart place (words_from touch.first touch.count) ps)) }
{
    let mut word = touch.first;
    for _ in 0..touch.count {
        track.note(hart, word, place)?;
        word = word.wrapping_add(4);
    }
    Ok(())
}

/// Its races: if it writes, with all accesses of its words, else with those that write.
pub(crate) fn meet_point(
    all: &Track,
    written: &Track,
    found: &mut RaceLists,
    harts: HartId,
    touch: Touch,
    point: &Reached,
) -> Result<(), AllocError>
    requires all_harts { harts ≡ length all.now.heads.items }
    requires written_harts { harts ≡ length written.now.heads.items }
    requires few { harts ≤ HARTS }
    requires aligned { touch.first % 4 ≡ 0 }
    requires all_below { AreBelow (length (lists_of found.old)) all.now.entries.items }
    requires written_below { AreBelow (length (lists_of found.old)) written.now.entries.items }
    ensures same { length (lists_of found.new) ≡ length (lists_of found.old) }
    ensures wrote { OnOk result (touch.writes ≡ true → MetWords all.now harts touch point.now found.old found.new) }
    ensures read { OnOk result (touch.writes ≡ false → MetWords written.now harts touch point.now found.old found.new) }
{
    if touch.writes {
        meet_words(all, found, harts, touch, point)
    } else {
        meet_words(written, found, harts, touch, point)
    }
}

/// Adds the accesses of a point: to all, and if it writes, to those that write.
pub(crate) fn note_point(
    all: &mut Track,
    written: &mut Track,
    touch: Touch,
    hart: HartId,
    place: u32,
) -> Result<(), AllocError>
    requires all_hart { hart < length all.old.heads.items }
    requires written_hart { hart < length written.old.heads.items }
    requires aligned { touch.first % 4 ≡ 0 }
    ensures all_harts { length all.new.heads.items ≡ length all.old.heads.items }
    ensures written_harts { length written.new.heads.items ≡ length written.old.heads.items }
    ensures all_below { (count : ℕ) → place < count → AreBelow count all.old.entries.items → AreBelow count all.new.entries.items }
    ensures written_below { (count : ℕ) → place < count → AreBelow count written.old.entries.items → AreBelow count written.new.entries.items }
    ensures all { OnOk result ((h w : ℕ) (ps : List ℕ) → w % 4 ≡ 0 → IsTracked all.old h w ps → IsTracked all.new h w (noted h w hart place (words_from touch.first touch.count) ps)) }
    ensures wrote { OnOk result (touch.writes ≡ true → (h w : ℕ) (ps : List ℕ) → w % 4 ≡ 0 → IsTracked written.old h w ps
        → IsTracked written.new h w (noted h w hart place (words_from touch.first touch.count) ps)) }
    ensures read { touch.writes ≡ false → written.new ≡ written.old }
{
    note_words(all, touch, hart, place)?;
    if touch.writes {
        note_words(written, touch, hart, place)?;
    }
    Ok(())
}
