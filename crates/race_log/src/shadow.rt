//! The shadow memory of a recording: it takes in each access and gives the edges into it. `specs/Represents.antt` says
//! which runs it represents; how it keeps them may change.
ghost use Rattle.std.specs.Prelude.{◌≡◌, ◌≢◌, ◌+◌, ◌*◌, ◌<◌, ◌≤◌, ◌^◌, ◌%◌, ◌==◌, ℕ, Bool, IsTrue, if◌then◌else◌};
ghost use Rattle.std.specs.Prelude.{List, [], filter, not, nat_le, ◌&&◌, All, length, vec_len, Some, None, IfOk, IsOk, OnOk, OnErr};
ghost use Rattle.std.specs.Option.{ForSome};
ghost use Rattle.bn_base.specs.declared.settings.TheConstants.{HARTS};
ghost use Rattle.race_log.specs.Words.{HasRoom, ArePresent};

use crate::edges::Edges;
use crate::mode::Mode;
use crate::search::find_sources;
use crate::sweep::{has_bit, least_with};
use crate::words::KeptWords;
use bn_base::{Addr, HartId, Ic, Settings};
use std::alloc::{AllocError, Global};
use vector_time::Times;

/// What each hart knows of the others' points, and what is kept of each word's accesses.
#[derive(Drop)]
pub struct Shadow {
    harts: HartId,
    last_turn: Option<u64>,
    reserved: Option<(Addr, u32)>,
    times: Vec<Times>,
    words: KeptWords,
    // The edges into the last access.
    edges: Edges,
    // One bit for each hart, set if the hart was live at each sweep so far.
    lasting: u16,
    // How many accesses were taken in since the last sweep.
    since: u64,
    ghost same_harts: { words.harts ≡ harts },
    ghost some_hart: { 0 < harts },
    ghost few_harts: { harts ≤ HARTS },
    ghost each_hart: { vec_len times ≡ harts },
    ghost present: { ArePresent words.epochs harts times.items },
    ghost room: { ForSome reserved (λ r. HasRoom words r.0 r.1) },
}

impl Shadow {
    ghost use Rattle.vector_time.specs.Times.{count_of};
    ghost use Rattle.race_log.specs.Points.{Point};
    ghost use Rattle.race_log.specs.ByCount.{IsLatestPoint, IsTimesOf};
    ghost use Rattle.race_log.specs.Kept.{access_point};
    ghost use Rattle.race_log.specs.Sweep.{has_bit, is_covered, accessed_below};
    ghost use Rattle.race_log.specs.Accesses.{MayAccess, HasEdges, HasNoEdges, TakesPoint, AwaitsNext, AwaitsAlone, NotesAlone};
    ghost use Rattle.race_log.specs.Represents.{RepresentsAccesses, KnowsSame, harts_of, lasting_of, lasts, next_turn, next_count, times_of, kept_of, words_of, held_of, is_known, reserved_range, edges_of, unswept_of, MakesRoom, HasSameSize, TakesIn};

    /// Knows of no point and keeps nothing.
    pub fn new(alloc: Global, settings: &Settings) -> Result<Shadow, AllocError>
        ensures harts { IfOk result (λ s. harts_of s ≡ settings.now.harts) }
        ensures turn { IfOk result (λ s. next_turn s ≡ 0) }
        ensures counts { IfOk result (λ s. (h : ℕ) → next_count s h ≡ 0) }
        ensures reserved { IfOk result (λ s. reserved_range s ≡ None) }
        ensures edges { IfOk result (λ s. edges_of s ≡ []) }
        ensures unswept { IfOk result (λ s. unswept_of s ≡ 0) }
        ensures words { IfOk result (λ s. words_of s ≡ 0) }
        ensures lasting { IfOk result (λ s. (h : ℕ) → h < harts_of s → IsTrue (lasts s h)) }
        ensures stands { IfOk result (λ s. (live : ℕ → Bool) → RepresentsAccesses [] live s) }
    {
        let harts = settings.harts();
        let mut times = Vec::new(alloc);
        for _ in 0..harts {
            times.push(Times::new())?;
        }
        Ok(Shadow {
            harts,
            last_turn: None,
            reserved: None,
            times,
            words: KeptWords::new(alloc, harts)?,
            edges: Edges::new(),
            lasting: u16::MAX,
            since: 0,
        })
    }

    /// Makes room for the next access, if it is of `count` words from `first`.
    ///
    /// The only error is out of memory. It comes only if that room isn't there, and changes nothing.
    #[inline(always)]
    pub fn reserve(&mut self, first: Addr, count: u32) -> Result<(), AllocError>
        requires aligned { first % 4 ≡ 0 }
        requires range { first + 4 * count ≤ 2 ^ 32 }
        ensures same { KnowsSame self.old self.new }
        ensures stands { (run : List Point) (live : ℕ → Bool) → RepresentsAccesses run live self.old → RepresentsAccesses run live self.new }
        ensures ok { OnOk result (reserved_range self.new ≡ Some (first, count)) }
        ensures err { OnErr result (reserved_range self.new ≡ reserved_range self.old) }
        ensures ready { reserved_range self.old ≡ Some (first, count) → IsOk result }
        ensures edges { edges_of self.new ≡ edges_of self.old }
        ensures unswept { unswept_of self.new ≡ unswept_of self.old }
        ensures room { MakesRoom first count self.old self.new }
    {
        self.words.make_room(first, count)?;
        self.reserved = Some((first, count));
        Ok(())
    }

    /// Takes in the hart's instruction at the count `ic`, done in this turn, which reads or writes `count` words from
    /// `first`; [`Shadow::edges`] then has the edges into it.
    #[inline(always)]
    pub fn access(&mut self, hart: HartId, ic: Ic, turn: u64, first: Addr, count: u32, mode: Mode)
        requires { MayAccess hart ic turn first count self.old }
        ensures edges { HasEdges hart (access_point hart ic turn first count mode) self.old self.new }
        ensures point { TakesPoint hart (access_point hart ic turn first count mode) self.old self.new }
        ensures next { AwaitsNext hart ic turn self.old self.new }
    {
        self.take_in(hart, ic, turn, first, count, mode);
    }

    /// Takes in an access of the one hart of a run, at this count and in this turn: whatever words it is of, no edge leads
    /// into it, and nothing is kept of it. So no room is needed, and none that was made stays reserved or is given up.
    #[inline(always)]
    pub fn access_alone(&mut self, ic: Ic, turn: u64)
        requires alone { harts_of self.old ≡ 1 }
        requires small { ic < 2 ^ 41 }
        requires turns { next_turn self.old ≤ turn }
        requires counts { next_count self.old 0 ≤ ic }
        requires lasting { IsTrue (lasts self.old 0) }
        ensures point { (first n : ℕ) (mode : Mode) → TakesPoint 0 (access_point 0 ic turn first n mode) self.old self.new }
        ensures none { (first n : ℕ) (mode : Mode) → HasNoEdges 0 (access_point 0 ic turn first n mode) self.old }
        ensures next { AwaitsAlone ic turn self.old self.new }
    {
        self.note_alone(ic, turn);
    }

    // Notes the count of the one hart, and the turn.
    #[inline(always)]
    fn note_alone(&mut self, ic: Ic, turn: u64)
        requires alone { harts_of self.old ≡ 1 }
        requires small { ic < 2 ^ 41 }
        ensures { NotesAlone ic turn self.old self.new }
    {
        self.times[0].set(0, ic + 1);
        self.last_turn = Some(turn);
    }

    // Takes in an access. One hart alone has no other to learn from, and nothing is kept for others.
    #[inline(always)]
    fn take_in(&mut self, hart: HartId, ic: Ic, turn: u64, first: Addr, count: u32, mode: Mode)
        requires hart { hart < harts_of self.old }
        requires ic { ic < 2 ^ 41 }
        requires aligned { first % 4 ≡ 0 }
        requires range { first + 4 * count ≤ 2 ^ 32 }
        requires reserved { reserved_range self.old ≡ Some (first, count) }
        ensures { TakesIn hart ic turn first count mode self.old self.new }
    {
        if self.harts == 1 {
            self.take_in_alone(hart, ic, turn);
        } else {
            self.take_in_among(hart, ic, turn, first, count, mode);
        }
    }

    // Takes in an access of one hart alone.
    #[inline(always)]
    fn take_in_alone(&mut self, hart: HartId, ic: Ic, turn: u64)
        requires hart { hart < harts_of self.old }
        requires ic { ic < 2 ^ 41 }
        requires alone { harts_of self.old ≡ 1 }
        ensures { (first count : ℕ) (mode : Mode) → TakesIn hart ic turn first count mode self.old self.new }
    {
        self.times[hart as usize].set(hart, ic + 1);
        self.last_turn = Some(turn);
        self.reserved = None;
        self.since = self.since.saturating_add(1);
        // Last, so that a caller's look at the edges reads no memory.
        self.edges.clear();
    }

    // Takes in an access of one hart among any number.
    #[inline(never)]
    fn take_in_among(
        &mut self,
        hart: HartId,
        ic: Ic,
        turn: u64,
        first: Addr,
        count: u32,
        mode: Mode,
    )
        requires hart { hart < harts_of self.old }
        requires ic { ic < 2 ^ 41 }
        requires aligned { first % 4 ≡ 0 }
        requires range { first + 4 * count ≤ 2 ^ 32 }
        requires reserved { reserved_range self.old ≡ Some (first, count) }
        ensures { TakesIn hart ic turn first count mode self.old self.new }
    {
        let times = &mut self.times[hart as usize];
        find_sources(
            &self.words,
            times,
            &mut self.edges,
            hart,
            mode.is_write(),
            first,
            count,
            self.harts as usize - 1,
        );
        times.set(hart, ic + 1);
        self.words.go_on(hart, self.edges.count() > 0, times);
        self.words.keep(first, count, hart, mode, turn, ic + 1);
        self.last_turn = Some(turn);
        self.reserved = None;
        self.since = self.since.saturating_add(1);
    }

    /// The edges into the access that was taken in last, and none before the first.
    pub fn edges(&self) -> &Edges
        ensures { result.now ≡ edges_of self.now }
    {
        &self.edges
    }

    /// For each hart, how many of its instructions are the given hart's latest point or before it; none of any hart, as
    /// long as the given hart has no point.
    pub fn times(&self, hart: HartId) -> &Times
        requires { hart < harts_of self.now }
        ensures value { (h : ℕ) → count_of result.now h ≡ times_of self.now hart h }
        ensures latest { (run : List Point) (live : ℕ → Bool) → RepresentsAccesses run live self.now →
            (p : Point) → IsLatestPoint run hart p → IsTimesOf run p (count_of result.now) }
        ensures none { (run : List Point) (live : ℕ → Bool) → RepresentsAccesses run live self.now →
            All (λ p. p.hart ≢ hart) run → (h : ℕ) → count_of result.now h ≡ 0 }
    {
        &self.times[hart as usize]
    }

    /// Gives up the kept accesses whose points the times of every hart of `live` cover, and answers how many; `live` has one
    /// bit for each hart, the lowest for hart 0. If none is set, all are given up. It takes no memory.
    ///
    /// What is kept then suffices for the harts whose bits were set at each sweep so far, and the others can access nothing
    /// any more.
    pub fn sweep(&mut self, live: u16) -> u64
        requires { live < 2 ^ harts_of self.old }
        ensures kept { (word : ℕ) → kept_of self.new word ≡ filter (λ k. not (is_known self.old live k.hart k.ic)) (kept_of self.old word) }
        ensures gone { result + held_of self.new ≡ held_of self.old }
        ensures stands { (run : List Point) (live_one : ℕ → Bool) → RepresentsAccesses run live_one self.old → RepresentsAccesses run live_one self.new }

        // How the conditions of the next access change.
        ensures lasting { (h : ℕ) → lasts self.new h ≡ (lasts self.old h && has_bit live h) }
        ensures harts { harts_of self.new ≡ harts_of self.old }
        ensures turn { next_turn self.new ≡ next_turn self.old }
        ensures times { (h other : ℕ) → times_of self.new h other ≡ times_of self.old h other }
        ensures reserved { reserved_range self.new ≡ reserved_range self.old }
        ensures edges { edges_of self.new ≡ edges_of self.old }
        ensures unswept { unswept_of self.new ≡ 0 }
        ensures size { HasSameSize self.old self.new }
    {
        let known = self.known_to_all(live);
        self.lasting &= live;
        self.since = 0;
        self.words.sweep(&known)
    }

    /// Whether a sweep is worth its walk: it goes over all words that have room, and by this comes no sooner than after as
    /// many accesses. So it costs each access a constant, whatever a guest does.
    pub fn is_sweep_due(&self) -> bool
        ensures { result ≡ nat_le (words_of self.now) (unswept_of self.now) }
    {
        self.since as usize / 64 >= self.words.pages.len()
    }

    /// How many accesses are kept: at most one more than there are harts for each word that was accessed so far.
    pub fn held(&self) -> u64
        ensures value { result ≡ held_of self.now }
        ensures most { (run : List Point) (live : ℕ → Bool) → RepresentsAccesses run live self.now →
            result ≤ (harts_of self.now + 1) * accessed_below run (words_of self.now) }
    {
        self.words.held()
    }

    // The points that the times of every hart of `live` cover: for each hart the least of their counts. `None`, which
    // covers all, if `live` has no hart.
    fn known_to_all(&self, live: u16) -> Option<Times>
        ensures { (hart count : ℕ) → is_covered result hart count ≡ is_known self.now live hart count }
    {
        let mut least = None;
        for hart in 0..self.harts {
            least = least_with(least, &self.times[hart as usize], has_bit(live, hart));
        }
        least
    }
}
