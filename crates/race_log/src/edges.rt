//! The sources of the edges into one point, which a recorder appends as Edge records.
ghost use Rattle.std.specs.Prelude.{◌≡◌, ◌<◌, ◌++◌, ◌∷◌, [], length, slice_get};

use bn_base::{HARTS, HartId, Ic};
use std::marker::Model;

/// The points that the edges into one point come from, each its hart and its count of instructions, the latest first.
/// There is at most one of each other hart.
#[derive(Drop)]
pub struct Edges {
    sources: [(HartId, Ic); HARTS],
    count: usize,
}

impl Model for Edges {
    ghost use Rattle.std.specs.Prelude.{◌≡◌, ◌≤◌, ℕ, List, length, take};
    ghost use Rattle.bn_base.specs.declared.settings.TheConstants.{HARTS};

    ghost Value = { List (ℕ × ℕ) };

    ghost view = { λ e. take e.count e.sources };

    ghost invariant = { λ e. (e.count ≤ HARTS) × (length e.sources ≡ HARTS) };
}

impl Edges {
    /// No edges.
    pub(crate) fn new() -> Edges
        ensures { result ≡ [] }
    {
        Edges {
            sources: [(0, 0); HARTS],
            count: 0,
        }
    }

    /// Leaves no edges.
    pub(crate) fn clear(&mut self)
        ensures { self.new ≡ [] }
    {
        self.count = 0;
    }

    /// Puts an edge's source at the end.
    pub(crate) fn push(&mut self, hart: HartId, ic: Ic)
        requires { length self.old < HARTS }
        ensures { self.new ≡ self.old ++ (hart, ic) ∷ [] }
    {
        self.sources[self.count] = (hart, ic);
        self.count += 1;
    }

    /// How many edges there are.
    pub fn count(&self) -> usize
        ensures { result ≡ length self.now }
    {
        self.count
    }

    /// The source of the edge at `i`, counted from 0; `None` if and only if `i` isn't below the count.
    pub fn get(&self, i: usize) -> Option<(HartId, Ic)>
        ensures { result ≡ slice_get self.now i }
    {
        if i < self.count {
            Some(self.sources[i])
        } else {
            None
        }
    }
}
