//! A hart's cache, as a recorder runs it: `touch` decides whether a load is logged. The definitions of `specs/History.antt`
//! pin its answers, so how it keeps its lines may change.
ghost use Rattle.std.specs.Prelude.{true, ◌≡◌, ◌<◌, ◌≤◌, ◌+◌, ◌*◌, ◌^◌, ◌↔◌, ◌∷◌, [], List, IfOk, IsTrue, All, length, replicate, vec_len, if◌then◌else◌};
ghost use Rattle.std.specs.Int.{is_power_of_two};
ghost use Rattle.first_load_bits.specs.Events.{Event, Touch, Drop, Clear, line_of, set_of, second_of};
ghost use Rattle.first_load_bits.specs.History.{IsWarm};
ghost use Rattle.first_load_bits.specs.Warm.{warm};
ghost use Rattle.first_load_bits.specs.Represents.{RepresentsEvents, geometry_of};
ghost use Rattle.first_load_bits.specs.Lines.{place_of};
ghost use Rattle.first_load_bits.specs.Places.{line_place};
ghost use Rattle.first_load_bits.specs.Ways.{empty_way};
ghost use Rattle.first_load_bits.specs.Steps.{IsListed, IsTouch, IsBitsBelow, IsTakenBelow, IsPutBelow, IsFallen, IsTakenListed};

use crate::power::Power;
use crate::warm::{Warm, answer};
use crate::way::{Way, bits, find, has_other, known_bits, place_for};
use bn_base::{Addr, Settings};
use std::alloc::{AllocError, Global};
use std::marker::Model;

/// The place of a line in each cache of one geometry: its number, the place of the first way of its set, and whether there is no
/// second level and a set has four ways.
#[derive(Clone, Copy, Drop)]
pub struct LinePlace {
    pub line: u32,
    pub first: usize,
    pub usual: bool,
}

/// A hart's cache: so many ways for each of its sets, and a second level of such sets, if the settings give one. It keeps
/// the lines' numbers and bits alone, and counts its touches and clears.
///
/// Contracts see a cache as its geometry, that count, the latest clear and its ways. `RepresentsEvents` says which histories
/// of touches, drops and clears a cache represents. Only `new` takes memory.
#[derive(Drop)]
pub struct Cache {
    // The ways of all sets, those of a set side by side; and so those of the second level.
    // One array for each level, with line, bits, age and generation side by side: there is one invariant in place of
    // four, and an access reads one place of memory.
    ways: Vec<Way>,
    ways_below: Vec<Way>,
    // How many ways a set has, 1 to 16; on the second level 0 if there is no such level.
    width: usize,
    width_below: usize,
    // The numbers of sets are these powers of two, and so is the number of words in a line.
    // So sets and words are found by shifts, without a division.
    set_bits: Power,
    set_bits_below: Power,
    word_bits: Power,
    // By how many bits an address is shifted for the number of its line.
    shift: u32,
    // Whether a set has four ways, as most have, and there is no second level.
    usual: bool,
    // How many touches and clears there were.
    steps: u64,
    // The number of the latest clear among them, 0 before the first.
    generation: u64,
}

impl Model for Cache {
    ghost use Rattle.first_load_bits.specs.Represents.{Contents};

    ghost Value = { Contents };

    ghost use Rattle.first_load_bits.specs.Cached.{contents, IsCache};

    ghost view = { contents };

    ghost invariant = { IsCache };
}

// So many empty ways for each of a number of sets, a power of two.
fn empty_ways(alloc: Global, set_bits: u32, width: usize) -> Result<Vec<Way>, AllocError>
    requires sets { set_bits ≤ 12 }
    requires ways { width ≤ 16 }
    ensures items { IfOk result (λ v. v.items ≡ replicate (2 ^ set_bits * width) empty_way) }
    ensures count { IfOk result (λ v. vec_len v ≡ 2 ^ set_bits * width) }
{
    let empty = Way {
        line: 0,
        mask: 0,
        age: 0,
    };
    vec![in alloc; empty; (1 << set_bits) * width]
}

// Which power of two a number of sets is; 0 if there are none.
fn power_of(sets: u64) -> u32
    requires { sets ≤ 4096 }
    ensures few { result ≤ 12 }
    ensures power { 0 < sets → IsTrue (is_power_of_two sets) → 2 ^ result ≡ sets }
{
    match sets.checked_ilog2() {
        Some(power) => power,
        None => 0,
    }
}

// Whether sets have four ways, and there is no second level.
fn is_usual(width: usize, width_below: usize) -> bool
    ensures { result ≡ true → (width ≡ 4) × (width_below ≡ 0) }
{
    width == 4 && width_below == 0
}

impl Cache {
    /// A cache that lists no line, of the sets, ways and words per line that the settings give. It takes all the memory
    /// that the cache will ever need, and the only error is want of it.
    pub fn new(alloc: Global, settings: &Settings) -> Result<Cache, AllocError>
        ensures geometry { IfOk result (λ c. c.geometry ≡ geometry_of settings.now) }
        ensures empty { IfOk result (λ c. RepresentsEvents c []) }
    {
        let raw = settings.raw();
        let width = settings.ways() as usize;
        let width_below = settings.second_ways() as usize;
        let set_bits = raw.sets.ilog2();
        let set_bits_below = power_of(raw.sets2);
        let word_bits = raw.line.ilog2();
        let ways = empty_ways(alloc, set_bits, width)?;
        let ways_below = empty_ways(alloc, set_bits_below, width_below)?;
        Ok(Cache {
            ways,
            ways_below,
            width,
            width_below,
            set_bits: Power::of(set_bits),
            set_bits_below: Power::of(set_bits_below),
            word_bits: Power::of(word_bits),
            shift: word_bits + 2,
            usual: is_usual(width, width_below),
            steps: 0,
            generation: 0,
        })
    }

    /// The number of the line that has the byte at an address.
    pub fn line_of(&self, addr: Addr) -> u32
        ensures { result ≡ line_of self.now.geometry addr }
    {
        addr >> self.shift
    }

    // The place of an address's word in its line.
    fn place_of(&self, addr: Addr) -> u32
        ensures value { result ≡ place_of self.now.geometry addr }
        ensures within { result < 16 }
    {
        self.word_bits.rest(addr >> 2)
    }

    // The place of the first way of a line's set.
    fn first_way(&self, line: u32) -> usize
        ensures value { result ≡ set_of self.now.geometry line * self.now.geometry.ways }
        ensures within { result + self.now.geometry.ways ≤ length self.now.ways }
    {
        self.first_among(line, self.width)
    }

    // The same of sets of so many ways.
    #[inline(always)]
    fn first_among(&self, line: u32, width: usize) -> usize
        requires { width ≡ self.now.geometry.ways }
        ensures value { result ≡ set_of self.now.geometry line * self.now.geometry.ways }
        ensures within { result + self.now.geometry.ways ≤ length self.now.ways }
    {
        self.set_bits.rest(line) as usize * width
    }

    // The place of the first way of a line's second set.
    fn first_way_below(&self, line: u32) -> usize
        ensures value { result ≡ set_of (second_of self.now.geometry) line * self.now.geometry.ways2 }
        ensures within { result + self.now.geometry.ways2 ≤ length self.now.ways_below }
    {
        self.set_bits_below.rest(line) as usize * self.width_below
    }

    // Takes a line out of the second level, and gives its bits, none set if it isn't there.
    #[inline(never)]
    fn take_below(&mut self, line: u32) -> u16
        ensures bits { IsBitsBelow self.old line result }
        ensures out { IsTakenBelow self.old line self.new }
    {
        let first = self.first_way_below(line);
        match find(&self.ways_below[first..first + self.width_below], line) {
            Some(at) => {
                let bits = bits(&self.ways_below[first + at], self.generation);
                self.ways_below[first + at].age = 0;
                bits
            }
            None => 0,
        }
    }

    // Puts a line into the second level, at the touch at which it fell.
    fn put_below(&mut self, way: Way)
        requires uncleared { self.old.generation < self.old.steps }
        requires later { All (λ w. w.age < self.old.steps) self.old.ways_below }
        requires fallen { way.age ≡ self.old.steps }
        ensures { IsPutBelow self.old way self.new }
    {
        if self.width_below != 0 {
            let first = self.first_way_below(way.line);
            let at = first + place_for(&self.ways_below[first..first + self.width_below], way.line);
            self.ways_below[at] = way;
        }
    }

    /// Touches the word that has the byte at an address, and tells whether it was warm just before. It was if, since some
    /// access of it after the last clear, the cache held its line at every moment. Its line takes the way that it has, else
    /// an empty one of its set, else the one touched longest ago, whose line is evicted to the second level.
    #[inline(always)]
    pub fn touch(&mut self, addr: Addr) -> Warm
        requires { self.old.steps < 2 ^ 42 }
        ensures answer { (es : List Event) → RepresentsEvents self.old es → result ≡ (if warm self.old.geometry addr es then Warm.Warm else Warm.Cold) }
        ensures history { (es : List Event) → RepresentsEvents self.old es → ((result ≡ Warm.Warm) ↔ IsWarm self.old.geometry addr es) }
        ensures stands { (es : List Event) → RepresentsEvents self.old es → RepresentsEvents self.new (Touch addr ∷ es) }
        ensures geometry { self.new.geometry ≡ self.old.geometry }
        ensures steps { self.new.steps ≡ self.old.steps + 1 }
    {
        // Four ways apart: so their places need no multiplication, and no loop compares them.
        if self.usual {
            self.touch_among(addr, 4)
        } else {
            self.touch_other(addr)
        }
    }

    // Touches a word whatever number of ways a set has, and whether or not there is a second level.
    #[inline(never)]
    fn touch_other(&mut self, addr: Addr) -> Warm
        requires { self.old.steps < 2 ^ 42 }
        ensures { IsTouch self.old addr result self.new }
    {
        if self.width_below != 0 {
            return self.touch_anew(addr);
        }
        self.touch_among(addr, self.width)
    }

    // Touches a word if there is no second level, and a set has so many ways.
    #[inline(always)]
    fn touch_among(&mut self, addr: Addr, width: usize) -> Warm
        requires steps { self.old.steps < 2 ^ 42 }
        requires alone { self.old.geometry.ways2 ≡ 0 }
        requires width { width ≡ self.old.geometry.ways }
        ensures { IsTouch self.old addr result self.new }
    {
        let line = self.line_of(addr);
        let first = self.first_among(line, width);
        match find(&self.ways[first..first + width], line) {
            Some(at) => self.touch_listed(addr, first, at),
            None => self.touch_anew(addr),
        }
    }

    // Touches a word whose line a way has, at this place in its set, if there is no second level. Its line stays, and nearly
    // always its mask counts: then mask and age are all that is written.
    #[inline(always)]
    fn touch_listed(&mut self, addr: Addr, first: usize, at: usize) -> Warm
        requires steps { self.old.steps < 2 ^ 42 }
        requires listed { IsListed self.old addr first at }
        ensures { IsTouch self.old addr result self.new }
    {
        let _line = self.line_of(addr);
        let place = self.place_of(addr);
        let way = &mut self.ways[first + at];
        if way.age > self.generation {
            let bits = way.mask;
            self.steps += 1;
            way.mask = bits | (1 << place);
            way.age = self.steps;
            return answer(bits, place);
        }
        self.touch_anew(addr)
    }

    // Touches a word whatever the levels have of its line.
    #[inline(never)]
    fn touch_anew(&mut self, addr: Addr) -> Warm
        requires { self.old.steps < 2 ^ 42 }
        ensures { IsTouch self.old addr result self.new }
    {
        let line = self.line_of(addr);
        let place = self.place_of(addr);
        let below = self.take_below(line);
        let first = self.first_way(line);
        let at = first + place_for(&self.ways[first..first + self.width], line);
        let old = self.ways[at];
        let bits = known_bits(&old, line, self.generation, below);
        self.steps += 1;
        self.ways[at] = Way {
            line,
            mask: bits | (1 << place),
            age: self.steps,
        };
        self.let_fall(old, line);
        answer(bits, place)
    }

    // Lets the line of a way fall to the second level, if it had another than the touched one.
    fn let_fall(&mut self, old: Way, line: u32)
        requires uncleared { self.old.generation < self.old.steps }
        requires later { All (λ w. w.age < self.old.steps) self.old.ways_below }
        ensures { IsFallen self.old line old self.new }
    {
        if has_other(&old, line) {
            self.put_below(Way {
                line: old.line,
                mask: bits(&old, self.generation),
                age: self.steps,
            });
        }
    }

    /// Drops the line that has the byte at an address from both levels, with the bits of all its words. A line that isn't
    /// listed or below stays so.
    #[inline(always)]
    #[tactic(auto, using(crate::proofs::Both::drop_goes))]
    pub fn drop_line(&mut self, addr: Addr)
        ensures stands { (es : List Event) → RepresentsEvents self.old es → RepresentsEvents self.new (Drop addr ∷ es) }
        ensures geometry { self.new.geometry ≡ self.old.geometry }
        ensures steps { self.new.steps ≡ self.old.steps }
    {
        let line = self.line_of(addr);
        self.leave_below(line);
        self.take_listed(line);
    }

    // Takes a line out of the second level, if there is one.
    #[inline(always)]
    fn leave_below(&mut self, line: u32)
        ensures { IsTakenBelow self.old line self.new }
    {
        if self.width_below != 0 {
            self.take_below(line);
        }
    }

    // Takes a line out of the first level.
    fn take_listed(&mut self, line: u32)
        ensures { IsTakenListed self.old line self.new }
    {
        let first = self.first_way(line);
        self.take_listed_in(line, first, self.width);
    }

    // The same, of a line whose set's first way is known, and how many ways a set has.
    #[inline(always)]
    fn take_listed_in(&mut self, line: u32, first: usize, width: usize)
        requires first { first ≡ set_of self.old.geometry line * self.old.geometry.ways }
        requires within { first + self.old.geometry.ways ≤ length self.old.ways }
        requires width { width ≡ self.old.geometry.ways }
        ensures { IsTakenListed self.old line self.new }
    {
        match find(&self.ways[first..first + width], line) {
            Some(at) => self.ways[first + at].age = 0,
            None => (),
        }
    }

    // Without a second level no line is below. This does nothing.
    fn has_none_below(&self, line: u32)
        requires { self.now.geometry.ways2 ≡ 0 }
        ensures { IsTakenBelow self.now line self.now }
    {
        let _none = self.width_below;
    }

    // Drops a line, if there is no second level, and a set has four ways.
    #[inline(always)]
    #[tactic(auto, using(crate::proofs::Both::drop_goes))]
    fn drop_usual(&mut self, addr: Addr, line: u32, first: usize)
        requires usual { (self.old.geometry.ways ≡ 4) × (self.old.geometry.ways2 ≡ 0) }
        requires line { line ≡ line_of self.old.geometry addr }
        requires first { first ≡ set_of self.old.geometry line * self.old.geometry.ways }
        ensures stands { (es : List Event) → RepresentsEvents self.old es → RepresentsEvents self.new (Drop addr ∷ es) }
        ensures geometry { self.new.geometry ≡ self.old.geometry }
        ensures steps { self.new.steps ≡ self.old.steps }
    {
        self.has_none_below(line);
        // Proves that the set's ways are there.
        let _first = self.first_way(line);
        self.take_listed_in(line, first, 4);
    }

    /// The place of the line that has the byte at an address, which is the same in all caches of one geometry.
    #[inline(always)]
    pub fn place_line(&self, addr: Addr) -> LinePlace
        ensures { result ≡ line_place self.now.geometry addr }
    {
        let line = self.line_of(addr);
        LinePlace {
            line,
            first: self.first_way(line),
            usual: self.width == 4 && self.width_below == 0,
        }
    }

    /// As [`drop_line`](Cache::drop_line), of an address whose line's place is known.
    #[inline(always)]
    pub fn drop_placed(&mut self, addr: Addr, place: &LinePlace)
        requires { place.now ≡ line_place self.old.geometry addr }
        ensures stands { (es : List Event) → RepresentsEvents self.old es → RepresentsEvents self.new (Drop addr ∷ es) }
        ensures geometry { self.new.geometry ≡ self.old.geometry }
        ensures steps { self.new.steps ≡ self.old.steps }
    {
        if place.usual {
            self.drop_usual(addr, place.line, place.first);
        } else {
            self.drop_line(addr);
        }
    }

    /// Clears the bits of all words, and keeps the lines in their sets: so an interval begins. It writes one number,
    /// whatever the size of the cache.
    pub fn clear_bits(&mut self)
        requires { self.old.steps < 2 ^ 42 }
        ensures stands { (es : List Event) → RepresentsEvents self.old es → RepresentsEvents self.new (Clear ∷ es) }
        ensures geometry { self.new.geometry ≡ self.old.geometry }
        ensures steps { self.new.steps ≡ self.old.steps + 1 }
    {
        self.steps += 1;
        self.generation = self.steps;
    }
}
