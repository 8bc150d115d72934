//! One level of the directory of pages, a radix tree.
ghost use Rattle.std.specs.Prelude.{◌≡◌, ◌≤◌, ◌<◌, ◌+◌, ℕ, [], true, length, slice_set, Some, OnOk, IfOk, IsOk};
ghost use Rattle.hart_replay.specs.Directories.{has_part, place_in, place_at, has_branch};

use std::alloc::{AllocError, Global};
use std::marker::Model;

/// A node: for each of the 256 parts of a part of the addresses a place in the level below.
#[derive(Drop)]
pub(crate) struct Node {
    /// The number of the part that the node is of.
    part: u32,
    places: [usize; 256],
}

impl Model for Node {
    ghost use Rattle.std.specs.Prelude.{◌≡◌, length};
    ghost use Rattle.hart_replay.specs.Directories.{Branch};

    ghost Value = { Branch };

    ghost view = { λ n. record { part = n.part; places = n.places } };

    ghost invariant = { λ n. length n.places ≡ 256 };
}

impl Node {
    /// A node of a part, with the place 0 for each of its parts.
    pub(crate) fn new(part: u32) -> Node
        ensures part { result.part ≡ part }
        ensures places { (p at : ℕ) → place_in (Some result) p at ≡ 0 }
    {
        Node {
            part,
            places: [0; 256],
        }
    }

    /// Whether it is the node of a part.
    pub(crate) fn is_of(&self, part: u32) -> bool
        ensures { result ≡ has_part (Some self.now) part }
    {
        self.part == part
    }

    /// Its place for one of its parts, if it is the node of `part`, else 0.
    pub(crate) fn place(&self, part: u32, at: u32) -> usize
        requires { at < 256 }
        ensures { result ≡ place_in (Some self.now) part at }
    {
        if self.part == part {
            self.places[at as usize]
        } else {
            0
        }
    }

    /// Changes its place for one of its parts.
    pub(crate) fn set(&mut self, at: u32, place: usize)
        requires { at < 256 }
        ensures value { self.new ≡ record self.old { places = slice_set self.old.places at place } }
        ensures count { length self.old.places ≡ 256 }
    {
        self.places[at as usize] = place;
    }

    /// A node with the same places.
    fn copy(&self) -> Node
        ensures { result ≡ self.now }
    {
        Node {
            part: self.part,
            places: self.places,
        }
    }
}

impl Clone for Node {
    ghost is_clone = { λ p q. q ≡ p };

    fn clone(&self) -> Result<Node, AllocError> {
        Ok(self.copy())
    }
}

/// The nodes of one level. A node is found by its place and its part, so a place that is out of
/// date finds none.
///
/// Contracts see the nodes, and for how many more there is room.
#[derive(Drop)]
pub(crate) struct RadixLevel {
    nodes: Vec<Node>,
}

impl Model for RadixLevel {
    ghost use Rattle.std.specs.Prelude.{◌-◌, vec_len, vec_capacity};
    ghost use Rattle.hart_replay.specs.Directories.{Branches};

    ghost Value = { Branches };

    ghost view = { λ l. record { branches = l.nodes.items; room = vec_capacity l.nodes - vec_len l.nodes } };
}

impl RadixLevel {
    /// No nodes. It takes no memory.
    pub(crate) fn new(alloc: Global) -> RadixLevel
        ensures { result.branches ≡ [] }
    {
        RadixLevel {
            nodes: Vec::new(alloc),
        }
    }

    /// Whether the node at a place is that of a part.
    pub(crate) fn has(&self, node: usize, part: u32) -> bool
        ensures { result ≡ has_branch self.now.branches node part }
    {
        match self.nodes.get(node) {
            None => false,
            Some(node) => node.is_of(part),
        }
    }

    /// The place that a node has for one of its parts; 0 if the node isn't that of `part`.
    pub(crate) fn place(&self, node: usize, part: u32, at: u32) -> usize
        requires { at < 256 }
        ensures { result ≡ place_at self.now.branches node part at }
    {
        match self.nodes.get(node) {
            None => 0,
            Some(node) => node.place(part, at),
        }
    }

    /// Makes a node of a part, and answers its place. No place changes, and it takes no memory if there
    /// is room.
    pub(crate) fn make(&mut self, part: u32) -> Result<usize, AllocError>
        ensures made { IfOk result (λ n. has_branch self.new.branches n part ≡ true) }
        ensures fresh { IfOk result (λ n. (at : ℕ) → place_at self.new.branches n part at ≡ 0) }
        ensures same { (n p at : ℕ) → place_at self.new.branches n p at ≡ place_at self.old.branches n p at }
        ensures ready { 0 < self.old.room → IsOk result }
        ensures room { self.old.room ≤ self.new.room + 1 }
    {
        let node = self.nodes.len();
        self.nodes.push(Node::new(part))?;
        Ok(node)
    }

    /// Changes the place that the node of a part has for one of its parts.
    pub(crate) fn set(&mut self, node: usize, part: u32, at: u32, place: usize)
        requires at { at < 256 }
        requires node { has_branch self.old.branches node part ≡ true }
        ensures here { place_at self.new.branches node part at ≡ place }
        ensures others { (n p a : ℕ) → (p ≡ part → a ≡ at → ⊥) → place_at self.new.branches n p a ≡ place_at self.old.branches n p a }
        ensures nodes { (n p : ℕ) → has_branch self.new.branches n p ≡ has_branch self.old.branches n p }
        ensures room { self.new.room ≡ self.old.room }
    {
        self.nodes[node].set(at, place);
    }

    /// Makes room for so many more nodes.
    pub(crate) fn make_room(&mut self, nodes: usize) -> Result<(), AllocError>
        ensures room { OnOk result (nodes ≤ self.new.room) }
        ensures same { self.new.branches ≡ self.old.branches }
    {
        self.nodes.reserve(nodes)
    }

    /// The same nodes.
    pub(crate) fn copy(&self) -> Result<RadixLevel, AllocError>
        ensures { IfOk result (λ l. l.branches ≡ self.now.branches) }
    {
        let alloc = *self.nodes.allocator();
        Ok(RadixLevel {
            nodes: Vec::from_clones(alloc, &self.nodes)?,
        })
    }
}
