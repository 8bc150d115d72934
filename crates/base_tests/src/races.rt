//! The race log through its public calls: which edges come of accesses, and what a hart then knows of another.
ghost use Rattle.std.specs.Prelude.{◌≡◌, ◌+◌, ◌*◌, ◌<◌, ◌≤◌, ◌^◌, ◌%◌, ℕ, ◌==◌, if◌then◌else◌, IfOk, OnOk, IsTrue};
ghost use Rattle.race_log.specs.Represents.{harts_of, lasting_of, lasts, next_turn, next_count};

use bn_base::{HartId, Ic, RawSettings, Settings};
use race_log::Mode::{self, Read, Write};
use race_log::{Edges, Shadow};
use std::alloc::{AllocError, Global};
use std::process::Abort;

// A word's address; the other words follow it.
const A: u32 = 0x20000;

fn some_harts(rt: &impl Abort, alloc: Global, harts: u8) -> Result<Shadow, AllocError>
    ensures harts { IfOk result (λ s. harts_of s ≡ harts) }
    ensures turn { IfOk result (λ s. next_turn s ≡ 0) }
    ensures counts { IfOk result (λ s. (h : ℕ) → next_count s h ≡ 0) }
    ensures lasting { IfOk result (λ s. (h : ℕ) → h < harts_of s → IsTrue (lasts s h)) }
{
    let raw = RawSettings {
        harts: u64::from(harts),
        ..RawSettings::default()
    };
    let settings = Settings::checked(&raw).expect(rt, "settings in range");
    assert_eq!(rt; settings.harts(), harts);
    Shadow::new(alloc, &settings)
}

// Whether edges come from these sources.
fn come_from(edges: &Edges, sources: &[(HartId, Ic)]) -> bool {
    let mut places = sources.iter().enumerate();
    edges.count() == sources.len()
        && places.all(|(i, source)| edges.get(i) == Some(*source))
        && edges.get(sources.len()).is_none()
}

// One access, whose count is above all counts so far; whether the edges into it come from these sources.
fn step(
    shadow: &mut Shadow,
    hart: HartId,
    ic: Ic,
    turn: u64,
    first: u32,
    count: u32,
    mode: Mode,
    sources: &[(HartId, Ic)],
) -> Result<bool, AllocError>
    requires hart { hart < harts_of shadow.old }
    requires ic { ic < 2 ^ 41 }
    requires aligned { first % 4 ≡ 0 }
    requires range { first + 4 * count ≤ 2 ^ 32 }
    requires turns { next_turn shadow.old ≤ turn }
    requires counts { (h : ℕ) → next_count shadow.old h ≤ ic }
    requires lasting { (h : ℕ) → h < harts_of shadow.old → IsTrue (lasts shadow.old h) }
    ensures harts { harts_of shadow.new ≡ harts_of shadow.old }
    ensures turn { OnOk result (next_turn shadow.new ≡ turn + 1) }
    ensures counts { (h : ℕ) → next_count shadow.new h ≤ ic + 1 }
    ensures lasting { lasting_of shadow.new ≡ lasting_of shadow.old }
{
    shadow.reserve(first, count)?;
    shadow.access(hart, ic, turn, first, count, mode);
    Ok(come_from(shadow.edges(), sources))
}

// A store of hart 0, and then a load of hart 1 whose count is lower: how many edges the store has, and the
// first edge of the load. Then whether hart 1 knows of the store, and hart 0 of the load.
fn lower_count(shadow: &mut Shadow) -> Result<(usize, Option<(HartId, Ic)>, bool, bool), AllocError>
    requires harts { harts_of shadow.old ≡ 3 }
    requires turn { next_turn shadow.old ≡ 0 }
    requires counts { (h : ℕ) → next_count shadow.old h ≡ 0 }
    requires lasting { (h : ℕ) → h < harts_of shadow.old → IsTrue (lasts shadow.old h) }
{
    shadow.reserve(A, 2)?;
    shadow.access(0, 4, 0, A, 2, Write);
    let edges = shadow.edges().count();
    shadow.reserve(A + 4, 2)?;
    shadow.access(1, 3, 1, A + 4, 2, Read);
    let source = shadow.edges().get(0);
    let known = shadow.times(1).covers(0, 4);
    Ok((edges, source, known, shadow.times(0).covers(1, 3)))
}

#[test]
fn a_hart_with_a_lower_count_follows(rt: HostRuntime) -> Result<(), AllocError> {
    let mut shadow = some_harts(&rt, rt.alloc(), 3)?;
    let told = lower_count(&mut shadow)?;
    assert!(rt; told == (0, Some((0, 4)), true, false));
    Ok(())
}

// A store and a load of words of the store, and a store of another word.
fn first_steps(s: &mut Shadow) -> Result<bool, AllocError>
    requires harts { harts_of s.old ≡ 3 }
    requires turn { next_turn s.old ≡ 0 }
    requires counts { (h : ℕ) → next_count s.old h ≡ 0 }
    requires lasting { (h : ℕ) → h < harts_of s.old → IsTrue (lasts s.old h) }
    ensures harts { harts_of s.new ≡ harts_of s.old }
    ensures turn { OnOk result (next_turn s.new ≡ 3) }
    ensures counts { OnOk result ((h : ℕ) → next_count s.new h ≤ 7) }
    ensures lasting { lasting_of s.new ≡ lasting_of s.old }
{
    let store = step(s, 0, 4, 0, A, 2, Write, &[])?;
    let load = step(s, 1, 5, 1, A + 4, 2, Read, &[(0, 4)])?;
    let other = step(s, 1, 6, 2, A + 12, 1, Write, &[])?;
    Ok(store && load && other)
}

// A load of all words, of which the edge from hart 1 implies the one from hart 0, and stores after loads.
fn next_steps(s: &mut Shadow) -> Result<bool, AllocError>
    requires harts { harts_of s.old ≡ 3 }
    requires turn { next_turn s.old ≡ 3 }
    requires counts { (h : ℕ) → next_count s.old h ≤ 7 }
    requires lasting { (h : ℕ) → h < harts_of s.old → IsTrue (lasts s.old h) }
    ensures harts { harts_of s.new ≡ harts_of s.old }
    ensures turn { OnOk result (next_turn s.new ≡ 7) }
    ensures counts { OnOk result ((h : ℕ) → next_count s.new h ≤ 11) }
    ensures lasting { lasting_of s.new ≡ lasting_of s.old }
{
    let all = step(s, 2, 7, 3, A, 4, Read, &[(1, 6)])?;
    let store = step(s, 0, 8, 4, A + 4, 2, Write, &[(2, 7)])?;
    let load = step(s, 1, 9, 5, A, 1, Read, &[])?;
    let again = step(s, 0, 10, 6, A, 1, Write, &[(1, 9)])?;
    Ok(all && store && load && again)
}

// Two readers, and a writer after both; then a writer of all words.
fn last_steps(s: &mut Shadow) -> Result<bool, AllocError>
    requires harts { harts_of s.old ≡ 3 }
    requires turn { next_turn s.old ≡ 7 }
    requires counts { (h : ℕ) → next_count s.old h ≤ 11 }
    requires lasting { (h : ℕ) → h < harts_of s.old → IsTrue (lasts s.old h) }
{
    let one = step(s, 1, 11, 7, A + 8, 1, Read, &[(0, 8)])?;
    let two = step(s, 2, 12, 8, A + 8, 1, Read, &[(0, 8)])?;
    let both = step(s, 0, 13, 9, A + 8, 1, Write, &[(2, 12), (1, 11)])?;
    let all = step(s, 2, 14, 10, A, 4, Write, &[(0, 13)])?;
    Ok(one && two && both && all)
}

// Whether all these steps have their edges.
fn all_steps(s: &mut Shadow) -> Result<bool, AllocError>
    requires harts { harts_of s.old ≡ 3 }
    requires turn { next_turn s.old ≡ 0 }
    requires counts { (h : ℕ) → next_count s.old h ≡ 0 }
    requires lasting { (h : ℕ) → h < harts_of s.old → IsTrue (lasts s.old h) }
{
    let first = first_steps(s)?;
    let next = next_steps(s)?;
    let last = last_steps(s)?;
    Ok(first && next && last)
}

#[test]
fn three_harts_share_four_words(rt: HostRuntime) -> Result<(), AllocError> {
    let mut shadow = some_harts(&rt, rt.alloc(), 3)?;
    let well = all_steps(&mut shadow)?;
    assert!(rt; well);
    Ok(())
}

// One access of one word; whether the edges into it come from the one source, or there is neither source
// nor edge.
fn one_step(
    shadow: &mut Shadow,
    hart: HartId,
    ic: Ic,
    turn: u64,
    mode: Mode,
    source: Option<(HartId, Ic)>,
) -> Result<bool, AllocError>
    requires hart { hart < harts_of shadow.old }
    requires ic { ic < 2 ^ 41 }
    requires turns { next_turn shadow.old ≤ turn }
    requires counts { next_count shadow.old hart ≤ ic }
    requires lasting { IsTrue (lasts shadow.old hart) }
    ensures harts { harts_of shadow.new ≡ harts_of shadow.old }
    ensures turn { OnOk result (next_turn shadow.new ≡ turn + 1) }
    ensures counts { OnOk result ((h : ℕ) → next_count shadow.new h ≡ (if h == hart then ic + 1 else next_count shadow.old h)) }
    ensures lasting { lasting_of shadow.new ≡ lasting_of shadow.old }
{
    shadow.reserve(A, 1)?;
    shadow.access(hart, ic, turn, A, 1, mode);
    let edges = shadow.edges();
    Ok(edges.get(0) == source && edges.get(1).is_none())
}

// A store of hart 0, and a load of hart 1, which has an edge from it.
fn store_and_load(shadow: &mut Shadow) -> Result<bool, AllocError>
    requires harts { harts_of shadow.old ≡ 2 }
    requires turn { next_turn shadow.old ≡ 0 }
    requires counts { (h : ℕ) → next_count shadow.old h ≡ 0 }
    requires lasting { (h : ℕ) → h < harts_of shadow.old → IsTrue (lasts shadow.old h) }
    ensures harts { harts_of shadow.new ≡ harts_of shadow.old }
    ensures turn { OnOk result (next_turn shadow.new ≡ 2) }
    ensures counts { OnOk result ((h : ℕ) → next_count shadow.new h ≤ 1) }
    ensures lasting { lasting_of shadow.new ≡ lasting_of shadow.old }
{
    let store = one_step(shadow, 0, 0, 0, Write, None)?;
    let load = one_step(shadow, 1, 0, 1, Read, Some((0, 0)))?;
    Ok(store && load)
}

// How many accesses are held after these, and how many a sweep gives up, which leaves the load: hart 1 knows of hart
// 0's store, and hart 0 doesn't know of hart 1's load. Then the same with a store more, after the load.
fn known_go(shadow: &mut Shadow) -> Result<(bool, [u64; 7]), AllocError>
    requires harts { harts_of shadow.old ≡ 2 }
    requires turn { next_turn shadow.old ≡ 0 }
    requires counts { (h : ℕ) → next_count shadow.old h ≡ 0 }
    requires lasting { (h : ℕ) → h < harts_of shadow.old → IsTrue (lasts shadow.old h) }
{
    let first = store_and_load(shadow)?;
    let held = shadow.held();
    let known = shadow.sweep(3);
    let left = shadow.held();
    let second = one_step(shadow, 0, 1, 2, Write, Some((1, 0)))?;
    let stored = shadow.held();
    let none = shadow.sweep(3);
    let alone = shadow.sweep(1);
    let counts = [held, known, left, stored, none, alone, shadow.held()];
    Ok((first && second, counts))
}

#[test]
fn accesses_that_all_know_go(rt: HostRuntime) -> Result<(), AllocError> {
    let mut shadow = some_harts(&rt, rt.alloc(), 2)?;
    let told = known_go(&mut shadow)?;
    assert!(rt; told == (true, [2, 1, 1, 1, 0, 1, 0]));
    Ok(())
}

// A load of the first word by hart 0, at a count and in a turn of the same number.
fn load_first(shadow: &mut Shadow, at: u64) -> Result<(), AllocError>
    requires harts { 0 < harts_of shadow.old }
    requires at { at < 2 ^ 40 }
    requires turns { next_turn shadow.old ≤ at }
    requires counts { next_count shadow.old 0 ≤ at }
    requires lasting { IsTrue (lasts shadow.old 0) }
    ensures harts { harts_of shadow.new ≡ harts_of shadow.old }
    ensures turns { OnOk result (next_turn shadow.new ≡ at + 1) }
    ensures counts { OnOk result (next_count shadow.new 0 ≡ at + 1) }
    ensures lasting { IsTrue (lasts shadow.new 0) }
{
    shadow.reserve(0, 1)?;
    shadow.access(0, at, at, 0, 1, Read);
    Ok(())
}

// Sixteen of them, the first at a count and in a turn of that number.
fn sixteen(shadow: &mut Shadow, from: u64) -> Result<(), AllocError>
    requires harts { 0 < harts_of shadow.old }
    requires from { from < 2 ^ 39 }
    requires turns { next_turn shadow.old ≤ from }
    requires counts { next_count shadow.old 0 ≤ from }
    requires lasting { IsTrue (lasts shadow.old 0) }
    ensures harts { harts_of shadow.new ≡ harts_of shadow.old }
    ensures turns { OnOk result (next_turn shadow.new ≤ from + 16) }
    ensures counts { OnOk result (next_count shadow.new 0 ≤ from + 16) }
    ensures lasting { IsTrue (lasts shadow.new 0) }
{
    'loads: for at in from..from + 16 {
        load_first(shadow, at)?;
    }
    Ok(())
}

// Whether a sweep is due: without a page; with one, of 64 words, after 16, 48 and 64 accesses of its words; and after
// a sweep. And how many accesses that gave up.
fn due(shadow: &mut Shadow) -> Result<([bool; 5], u64), AllocError>
    requires harts { harts_of shadow.old ≡ 2 }
    requires turn { next_turn shadow.old ≡ 0 }
    requires counts { next_count shadow.old 0 ≡ 0 }
    requires lasting { IsTrue (lasts shadow.old 0) }
{
    let none = shadow.is_sweep_due();
    sixteen(shadow, 0)?;
    let first = shadow.is_sweep_due();
    sixteen(shadow, 16)?;
    sixteen(shadow, 32)?;
    let third = shadow.is_sweep_due();
    sixteen(shadow, 48)?;
    let last = shadow.is_sweep_due();
    let gone = shadow.sweep(3);
    Ok(([none, first, third, last, shadow.is_sweep_due()], gone))
}

#[test]
fn a_sweep_of_a_page_is_due_after_its_words_accesses(rt: HostRuntime) -> Result<(), AllocError> {
    let mut shadow = some_harts(&rt, rt.alloc(), 2)?;
    let told = due(&mut shadow)?;
    assert!(rt; told == ([true, false, false, true, false], 0));
    Ok(())
}
