//! A radix tree from the numbers of pages to their places, for the words that a replay knows.
ghost use Rattle.std.specs.Prelude.{◌≡◌, ◌≤◌, ◌<◌, ◌+◌, ◌^◌, ◌==◌, ℕ, true, if◌then◌else◌, OnOk, IfOk, IsOk};
ghost use Rattle.hart_replay.specs.Directories.{place_at, place_for, has_branch};

use crate::level::RadixLevel;
use std::alloc::{AllocError, Global};
use std::marker::Model;

/// A place for each number below 2^24, which is 0 before it is put: three levels of nodes, by the
/// number's bytes from the highest on. A place is found by three look-ups in arrays, whatever the
/// numbers are that were put.
///
/// Contracts see the places, and for how many numbers more there is room.
#[derive(Drop)]
pub(crate) struct Directory {
    /// The place of the first level's node.
    root: usize,
    tops: RadixLevel,
    mids: RadixLevel,
    leaves: RadixLevel,
}

impl Model for Directory {
    ghost use Rattle.std.specs.Prelude.{min, cond};
    ghost use Rattle.hart_replay.specs.Directories.{Paths, has_branch};

    ghost Value = { Paths };

    ghost view = { λ d. record {
      root = d.root;
      tops = d.tops.branches;
      mids = d.mids.branches;
      leaves = d.leaves.branches;
      room = cond (has_branch d.tops.branches d.root 0) (min d.mids.room d.leaves.room) 0;
    } };
}

// Makes the first level's node, if there is none.
fn make_root(root: &mut usize, tops: &mut RadixLevel) -> Result<(), AllocError>
    ensures made { OnOk result (has_branch tops.new.branches root.new 0 ≡ true) }
    ensures same { (at : ℕ) → place_at tops.new.branches root.new 0 at ≡ place_at tops.old.branches root.old 0 at }
    ensures stays { has_branch tops.old.branches root.old 0 ≡ true → has_branch tops.new.branches root.new 0 ≡ true }
    ensures ready { has_branch tops.old.branches root.old 0 ≡ true → IsOk result }
{
    if !tops.has(*root, 0) {
        *root = tops.make(0)?;
    }
    Ok(())
}

// The place of the node of `low` below the node of a part. It is made if there is none.
fn below(
    upper: &mut RadixLevel,
    node: usize,
    part: u32,
    at: u32,
    lower: &mut RadixLevel,
    low: u32,
) -> Result<usize, AllocError>
    requires at { at < 256 }
    requires node { has_branch upper.old.branches node part ≡ true }
    ensures made { IfOk result (λ n. (place_at upper.new.branches node part at ≡ n) × (has_branch lower.new.branches n low ≡ true)) }
    ensures lower { (n p a : ℕ) → place_at lower.new.branches n p a ≡ place_at lower.old.branches n p a }
    ensures here { (a : ℕ) → place_at lower.new.branches (place_at upper.new.branches node part at) low a ≡ place_at lower.old.branches (place_at upper.old.branches node part at) low a }
    ensures others { (n p a : ℕ) → (p ≡ part → a ≡ at → ⊥) → place_at upper.new.branches n p a ≡ place_at upper.old.branches n p a }
    ensures nodes { (n p : ℕ) → has_branch upper.new.branches n p ≡ has_branch upper.old.branches n p }
    ensures ready { 0 < lower.old.room → IsOk result }
    ensures room { (lower.old.room ≤ lower.new.room + 1) × (upper.new.room ≡ upper.old.room) }
{
    let old = upper.place(node, part, at);
    if lower.has(old, low) {
        return Ok(old);
    }
    let new = lower.make(low)?;
    upper.set(node, part, at, new);
    Ok(new)
}

impl Directory {
    /// Each number's place is 0. It takes no memory.
    pub(crate) fn new(alloc: Global) -> Directory
        ensures { (n : ℕ) → place_for result n ≡ 0 }
    {
        Directory {
            root: 0,
            tops: RadixLevel::new(alloc),
            mids: RadixLevel::new(alloc),
            leaves: RadixLevel::new(alloc),
        }
    }

    /// The place of a number.
    pub(crate) fn place(&self, number: u32) -> usize
        requires { number < 2 ^ 24 }
        ensures { result ≡ place_for self.now number }
    {
        let high = number / 65536;
        let middle = number / 256;
        let mid = self.tops.place(self.root, 0, high);
        let leaf = self.mids.place(mid, high, middle % 256);
        self.leaves.place(leaf, middle, number % 256)
    }

    /// Changes the place of a number. It takes no memory if there is room for a number, and fills the
    /// room of one at most.
    pub(crate) fn put(&mut self, number: u32, place: usize) -> Result<(), AllocError>
        requires { number < 2 ^ 24 }
        ensures place { OnOk result ((n : ℕ) → n < 2 ^ 24 → place_for self.new n ≡ (if n == number then place else place_for self.old n)) }
        ensures ready { 0 < self.old.room → IsOk result }
        ensures room { self.old.room ≤ self.new.room + 1 }
    {
        let high = number / 65536;
        let middle = number / 256;
        make_root(&mut self.root, &mut self.tops)?;
        let mid = below(&mut self.tops, self.root, 0, high, &mut self.mids, high)?;
        let leaf = below(
            &mut self.mids,
            mid,
            high,
            middle % 256,
            &mut self.leaves,
            middle,
        )?;
        self.leaves.set(leaf, middle, number % 256, place);
        Ok(())
    }

    /// Makes room for so many more numbers. The places stay.
    #[inline(always)]
    pub(crate) fn make_room(&mut self, numbers: usize) -> Result<(), AllocError>
        ensures room { OnOk result (numbers ≤ self.new.room) }
        ensures same { (n : ℕ) → place_for self.new n ≡ place_for self.old n }
    {
        make_root(&mut self.root, &mut self.tops)?;
        self.mids.make_room(numbers)?;
        self.leaves.make_room(numbers)
    }

    /// The same places.
    pub(crate) fn copy(&self) -> Result<Directory, AllocError>
        ensures { IfOk result (λ d. d ≡ record self.now { room = d.room }) }
    {
        Ok(Directory {
            root: self.root,
            tops: self.tops.copy()?,
            mids: self.mids.copy()?,
            leaves: self.leaves.copy()?,
        })
    }
}
