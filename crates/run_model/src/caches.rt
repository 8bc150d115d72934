//! The caches of the harts: they decide which loads a recording logs.
ghost use Rattle.std.specs.Prelude.{◌≡◌, ◌≤◌, ◌<◌, ◌+◌, ◌*◌, ◌^◌, ◌==◌, ℕ, List, [], Bool, true, false, length, get_or, IfOk, Option, Some, None, if◌then◌else◌};
ghost use Rattle.run_model.specs.Common.{Program, RawSettings, Want, Reply, Plan, Event, Touch, Clear, Contents, RepresentsEvents};
ghost use Rattle.run_model.specs.declared.turn_end.TurnEnd.TheVariants.{GoesOn, NewInterval};
ghost use Rattle.run_model.specs.Machine.{Machine};
ghost use Rattle.run_model.specs.declared.span.Span.{Span};
ghost use Rattle.run_model.specs.Turn.{drops, dropped, events_after, loading, span_of, warmth};
ghost use Rattle.run_model.specs.Represents.Parts.{AreAddresses};
ghost use Rattle.run_model.specs.Represents.Tracing.{CachesGoOn, touched_by};
ghost use Rattle.run_model.specs.Represents.EachCache.{AreCaches, cache_of, steps_in, touched_word, touches, where_loading, events_cleared, is_spared, AreAlike, IsDropped, IsSetTo};
ghost use Rattle.first_load_bits.specs.Places.{line_place};

use crate::span::Span;
use bn_base::{Addr, HartId, Settings};
use first_load_bits::laws::a_second_drop_changes_nothing;
use first_load_bits::{Cache, LinePlace, Warm};
use race_log::Mode;
use std::alloc::{AllocError, Global};
use std::marker::Model;
use system_calls::Plan;

/// A cache for each hart. Contracts see what each of them keeps, and say by `AreCaches` which
/// histories, one for each hart, they represent. Only `new` takes memory.
#[derive(Drop)]
pub struct Caches {
    of: Vec<Cache>,
}

impl Model for Caches {
    ghost use Rattle.std.specs.Prelude.{List};
    ghost use Rattle.first_load_bits.specs.Represents.{Contents};

    ghost Value = { List Contents };

    ghost use Rattle.run_model.specs.Represents.EachCache.{AreAlike};

    ghost view = { λ c. c.of.items };

    ghost invariant = { λ c. AreAlike c.of.items };
}

// Drops the line of a word after those of the words from the first up to it, unless it is the line of the one before.
fn drop_word(cache: &mut Cache, first: Addr, place: u32)
    requires { first + 4 * place < 2 ^ 32 }
    ensures stands { (es : List Event) → RepresentsEvents cache.old (drops first place es) → RepresentsEvents cache.new (drops first (place + 1) es) }
    ensures geometry { cache.new.geometry ≡ cache.old.geometry }
    ensures steps { cache.new.steps ≡ cache.old.steps }
{
    a_second_drop_changes_nothing();
    let addr = first + 4 * place;
    if place == 0 || cache.line_of(addr) != cache.line_of(addr - 4) {
        cache.drop_line(addr);
    }
}

// Drops the lines of so many words from the first on, each line once.
#[inline(never)]
fn drop_words(cache: &mut Cache, first: Addr, count: u32)
    requires { first + 4 * count ≤ 2 ^ 32 }
    ensures stands { (es : List Event) → RepresentsEvents cache.old es → RepresentsEvents cache.new (drops first count es) }
    ensures geometry { cache.new.geometry ≡ cache.old.geometry }
    ensures steps { cache.new.steps ≡ cache.old.steps }
{
    for place in 0..count {
        drop_word(cache, first, place);
    }
}

// Drops the lines of so many words; nearly always it is one word.
#[inline(always)]
fn drop_few(cache: &mut Cache, first: Addr, count: u32)
    requires { first + 4 * count ≤ 2 ^ 32 }
    ensures stands { (es : List Event) → RepresentsEvents cache.old es → RepresentsEvents cache.new (drops first count es) }
    ensures geometry { cache.new.geometry ≡ cache.old.geometry }
    ensures steps { cache.new.steps ≡ cache.old.steps }
{
    if count == 1 {
        cache.drop_line(first);
    } else {
        drop_words(cache, first, count);
    }
}

// Drops the lines of what is written from a cache, unless it is spared.
#[inline(always)]
fn drop_unless(cache: &mut Cache, spared: bool, first: Addr, count: u32)
    requires { first + 4 * count ≤ 2 ^ 32 }
    ensures stands { (es : List Event) → RepresentsEvents cache.old es → RepresentsEvents cache.new (elim spared [ true ↦ es | false ↦ drops first count es ]) }
    ensures geometry { cache.new.geometry ≡ cache.old.geometry }
    ensures steps { cache.new.steps ≡ cache.old.steps }
{
    if !spared {
        drop_few(cache, first, count);
    }
}

// Whether a hart's cache is spared.
fn is_spared(spared: Option<HartId>, k: usize) -> bool
    ensures { result ≡ is_spared spared k }
{
    match spared {
        Some(hart) => k == hart as usize,
        None => false,
    }
}

// Drops the lines of so many words from all caches but the one that is spared.
fn drop_words_from_each(caches: &mut [Cache], spared: Option<HartId>, first: Addr, count: u32)
    requires { first + 4 * count ≤ 2 ^ 32 }
    ensures { IsDropped spared (drops first count) (length caches.old) caches.old caches.new }
{
    for k in 0..caches.len() {
        drop_unless(&mut caches[k], is_spared(spared, k), first, count);
    }
}

// Drops the line of a word from a cache, unless it is spared.
#[inline(always)]
fn drop_placed_unless(cache: &mut Cache, spared: bool, first: Addr, place: &LinePlace)
    requires { place.now ≡ line_place cache.old.geometry first }
    ensures stands { (es : List Event) → RepresentsEvents cache.old es → RepresentsEvents cache.new (elim spared [ true ↦ es | false ↦ drops first 1 es ]) }
    ensures geometry { cache.new.geometry ≡ cache.old.geometry }
    ensures steps { cache.new.steps ≡ cache.old.steps }
{
    if !spared {
        cache.drop_placed(first, place);
    }
}

// Drops the line of one word from all caches but the one that is spared. They have one geometry, so it is looked for once.
fn drop_word_from_each(caches: &mut [Cache], spared: Option<HartId>, first: Addr)
    requires alike { AreAlike caches.old }
    ensures { IsDropped spared (drops first 1) (length caches.old) caches.old caches.new }
{
    if caches.len() > 0 {
        let place = caches[0].place_line(first);
        for k in 0..caches.len() {
            drop_placed_unless(&mut caches[k], is_spared(spared, k), first, &place);
        }
    }
}

// Drops the lines of so many words from all caches but the one that is spared; nearly always it is one word.
#[inline(never)]
fn drop_from_each(caches: &mut [Cache], spared: Option<HartId>, first: Addr, count: u32)
    requires range { first + 4 * count ≤ 2 ^ 32 }
    requires alike { AreAlike caches.old }
    ensures { IsDropped spared (drops first count) (length caches.old) caches.old caches.new }
{
    if count == 1 {
        drop_word_from_each(caches, spared, first);
    } else {
        drop_words_from_each(caches, spared, first, count);
    }
}

// Drops the lines of what is written from all caches but the one that is spared.
#[inline(always)]
fn drop_written(caches: &mut [Cache], spared: Option<HartId>, span: Span)
    requires range { span.first + 4 * span.count ≤ 2 ^ 32 }
    requires alike { AreAlike caches.old }
    ensures { IsDropped spared (dropped span) (length caches.old) caches.old caches.new }
{
    match span.mode {
        Mode::Read => (),
        Mode::Write => drop_from_each(caches, spared, span.first, span.count),
    }
}

// Drops the lines of what a hart writes from the caches of the others, if there are others.
#[inline(always)]
fn drop_from_others(caches: &mut [Cache], hart: HartId, span: Span)
    requires hart { hart < length caches.old }
    requires addresses { span.first + 4 * span.count ≤ 2 ^ 32 }
    requires alike { AreAlike caches.old }
    ensures { IsDropped (Some hart) (dropped span) (length caches.old) caches.old caches.new }
{
    if caches.len() > 1 {
        drop_written(caches, Some(hart), span);
    }
}

// Touches the word at an address in a hart's cache.
#[inline(always)]
fn touch(caches: &mut [Cache], hart: HartId, addr: Addr) -> Warm
    requires hart { hart < length caches.old }
    requires steps { steps_in caches.old hart < 2 ^ 42 }
    ensures answer { (c : RawSettings) (events : ℕ → List Event) → AreCaches c caches.old events → Some result ≡ warmth c (Some addr) (events hart) }
    ensures touched { IsSetTo hart (Touch addr) caches.old caches.new }
{
    caches[hart as usize].touch(addr)
}

// Takes in an access of the hart's own.
#[inline(always)]
fn access(caches: &mut [Cache], hart: HartId, span: Span) -> Warm
    requires hart { hart < length caches.old }
    requires steps { steps_in caches.old hart < 2 ^ 42 }
    requires addresses { span.first + 4 * span.count ≤ 2 ^ 32 }
    requires alike { AreAlike caches.old }
    ensures alike { AreAlike caches.new }
    ensures stands { (c : RawSettings) (events : ℕ → List Event) → AreCaches c caches.old events → AreCaches c caches.new (events_after GoesOn hart None (Some span) events) }
    ensures answer { (c : RawSettings) (events : ℕ → List Event) → AreCaches c caches.old events → Some result ≡ warmth c (Some span.first) (events hart) }
    ensures count { length caches.new ≡ length caches.old }
    ensures steps { (k : ℕ) → steps_in caches.new k ≡ (if k == hart then steps_in caches.old k + 1 else steps_in caches.old k) }
{
    let warm = touch(caches, hart, span.first);
    drop_from_others(caches, hart, span);
    warm
}

// Makes all words cold for a hart, as at the start of an interval; its cache lists the same lines.
fn clear(caches: &mut Vec<Cache>, hart: HartId)
    requires hart { hart < length caches.old.items }
    requires steps { steps_in caches.old.items hart < 2 ^ 42 }
    ensures { IsSetTo hart Clear caches.old.items caches.new.items }
{
    caches[hart as usize].clear_bits();
}

impl Caches {
    /// A cache for each hart of the settings, none of which lists a line. The only error is out of
    /// memory.
    pub fn new(alloc: Global, settings: &Settings) -> Result<Caches, AllocError>
        ensures stands { IfOk result (λ cs. AreCaches settings.now cs (λ k. [])) }
        ensures steps { IfOk result (λ cs. (k : ℕ) → steps_in cs k ≡ 0) }
    {
        let harts = settings.harts() as usize;
        let mut of = Vec::with_capacity(alloc, harts)?;
        for _ in 0..harts {
            of.push(Cache::new(alloc, settings)?)?;
        }
        Ok(Caches { of })
    }

    /// Takes in the words that a hart's instruction accesses. An access of its own touches its word in
    /// the hart's cache, and what it writes is dropped from the others; what a system call writes is
    /// dropped from all. The answer is how the touched word was just before, if one is touched.
    pub fn take(&mut self, hart: HartId, call: Option<Plan>, span: Option<Span>) -> Option<Warm>
        requires hart { hart < length self.old }
        requires steps { steps_in self.old hart < 2 ^ 42 }
        requires addresses { AreAddresses span }
        ensures stands { (c : RawSettings) (events : ℕ → List Event) → AreCaches c self.old events → AreCaches c self.new (events_after GoesOn hart call span events) }
        ensures answer { (c : RawSettings) (events : ℕ → List Event) → AreCaches c self.old events → result ≡ warmth c (touched_word call span) (events hart) }
        ensures count { length self.new ≡ length self.old }
        ensures steps { (k : ℕ) → steps_in self.new k ≡ (if k == hart then steps_in self.old k + touches (touched_word call span) else steps_in self.old k) }
    {
        match span {
            None => None,
            Some(span) => match call {
                None => Some(self.take_access(hart, span)),
                Some(_) => {
                    drop_written(self.of.as_mut_slice(), None, span);
                    None
                }
            },
        }
    }

    // Takes in an access of the hart's own.
    #[inline(always)]
    pub(crate) fn take_access(&mut self, hart: HartId, span: Span) -> Warm
        requires hart { hart < length self.old }
        requires steps { steps_in self.old hart < 2 ^ 42 }
        requires addresses { span.first + 4 * span.count ≤ 2 ^ 32 }
        ensures stands { (c : RawSettings) (events : ℕ → List Event) → AreCaches c self.old events → AreCaches c self.new (events_after GoesOn hart None (Some span) events) }
        ensures answer { (c : RawSettings) (events : ℕ → List Event) → AreCaches c self.old events → Some result ≡ warmth c (Some span.first) (events hart) }
        ensures count { length self.new ≡ length self.old }
        ensures steps { (k : ℕ) → steps_in self.new k ≡ (if k == hart then steps_in self.old k + 1 else steps_in self.old k) }
    {
        access(self.of.as_mut_slice(), hart, span)
    }

    /// A hart begins an interval: the bits of its cache are cleared, and the lines stay.
    pub fn clear(&mut self, hart: HartId)
        requires hart { hart < length self.old }
        requires steps { steps_in self.old hart < 2 ^ 42 }
        ensures stands { (c : RawSettings) (events : ℕ → List Event) → AreCaches c self.old events → AreCaches c self.new (events_cleared hart events) }
        ensures interval { (c : RawSettings) (call : Option Plan) (span : Option Span) (events : ℕ → List Event) (reason value : ℕ) →
            CachesGoOn c (NewInterval reason value) hart call span events self.old self.new }
        ensures count { length self.new ≡ length self.old }
        ensures steps { (k : ℕ) → steps_in self.new k ≡ (if k == hart then steps_in self.old k + 1 else steps_in self.old k) }
    {
        clear(&mut self.of, hart);
    }
}

/// A loading access touches the word that it loads, so what [`Caches::take`] answers is how that word
/// was.
pub fn loading_accesses_touch_their_words()
    ensures word { (want : Want) (reply : Reply) (a : ℕ) → loading want ≡ Some a → touched_word None (span_of None want reply) ≡ Some a }
    ensures warmth { (c : RawSettings) (i : Program) (m : Machine) (want : Want) (reply : Reply) (es : List Event) →
        warmth c (loading want) es ≡ where_loading (loading want) (warmth c (touched_by i m want reply) es) }
{}
