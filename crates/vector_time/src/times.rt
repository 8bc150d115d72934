//! A vector time in an array, with no heap: recorders copy and merge one at each conflict.
ghost use Rattle.std.specs.Prelude.{◌≡◌, ◌<◌, ◌↔◌, ◌==◌, ℕ, IsTrue, length, max, min, if◌then◌else◌};
ghost use Rattle.bn_base.specs.declared.settings.TheConstants.{HARTS};

use bn_base::{HARTS, HartId, Ic};

/// For each hart, how many of its points are known to be before.
///
/// A hart's points are counted from 0, so a count `n` represents the points 0 to `n - 1` of that hart.
#[derive(Clone, Copy)]
pub struct Times {
    counts: [Ic; HARTS],
    ghost each_hart: { length counts ≡ HARTS },
}

impl Times {
    ghost use Rattle.vector_time.specs.Times.{count_of};

    /// Knows of no point.
    pub fn new() -> Times
        ensures { (h : ℕ) → count_of result h ≡ 0 }
    {
        Times { counts: [0; HARTS] }
    }

    /// Whether the hart's point at the count `ic` is among those known.
    pub fn covers(&self, hart: HartId, ic: Ic) -> bool
        requires { hart < HARTS }
        ensures { IsTrue result ↔ (ic < count_of self.now hart) }
    {
        ic < self.counts[hart as usize]
    }

    /// Takes each hart's greater count.
    pub fn merge(&mut self, other: &Times)
        ensures { (h : ℕ) → count_of self.new h ≡ max (count_of self.old h) (count_of other.now h) }
    {
        for hart in 0..HARTS {
            self.counts[hart] = self.counts[hart].max(other.counts[hart]);
        }
    }

    /// Takes each hart's greater count; of one hart, `count` is taken in place of the other's.
    pub fn merge_but(&mut self, other: &Times, hart: HartId, count: Ic)
        requires { hart < HARTS }
        ensures { (h : ℕ) → count_of self.new h ≡ max (count_of self.old h) (if h == hart then count else count_of other.now h) }
    {
        let own = self.counts[hart as usize].max(count);
        self.merge(other);
        self.counts[hart as usize] = own;
    }

    /// Takes each hart's lower count.
    pub fn meet(&mut self, other: &Times)
        ensures { (h : ℕ) → count_of self.new h ≡ min (count_of self.old h) (count_of other.now h) }
    {
        for place in 0..HARTS {
            self.counts[place] = self.counts[place].min(other.counts[place]);
        }
    }

    /// Sets the hart's count.
    pub fn set(&mut self, hart: HartId, count: Ic)
        requires { hart < HARTS }
        ensures { (h : ℕ) → count_of self.new h ≡ (if h == hart then count else count_of self.old h) }
    {
        self.counts[hart as usize] = count;
    }
}
