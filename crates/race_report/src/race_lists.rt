//! The races that were found so far, by the place of their first point.
ghost use Rattle.std.specs.Prelude.{◌≡◌, ◌<◌, ◌+◌, ◌==◌, ◌++◌, [], ◌∷◌, true, false, min, length, slice_get, Some, None, OnOk, OnErr, IfOk, if◌then◌else◌};
ghost use Rattle.race_report.specs.Found.{met, met_at, lists_in, total, last_meets};

use crate::meeting::Meeting;
use bn_base::Addr;
use std::alloc::{AllocError, Global};

/// For each place the later places that are races with it, and how many that are in all.
#[derive(Drop)]
pub(crate) struct RaceLists {
    lists: Vec<Vec<Meeting>>,
    count: u64,
    ghost counted: { count ≡ total lists.items },
}

impl RaceLists {
    ghost use Rattle.race_report.specs.Found.{total};

    /// No place.
    pub(crate) fn new(alloc: Global) -> RaceLists
        ensures { lists_in result.lists.items ≡ [] }
    {
        RaceLists {
            lists: Vec::new(alloc),
            count: 0,
        }
    }

    /// How many races there are.
    pub(crate) fn count(&self) -> u64
        ensures { result ≡ total self.now.lists.items }
    {
        self.count
    }

    /// The places that are races with a place.
    pub(crate) fn with(&self, first: usize) -> &[Meeting]
        requires { first < length (lists_in self.now.lists.items) }
        ensures { slice_get (lists_in self.now.lists.items) first ≡ Some result.now }
    {
        &self.lists[first]
    }

    /// How many places there are.
    #[tactic(auto, using(crate::proofs::Lists::lists_length))]
    pub(crate) fn len(&self) -> usize
        ensures { result ≡ length (lists_in self.now.lists.items) }
    {
        self.lists.len()
    }

    /// One more place, which is a race with none.
    #[tactic(auto, using(crate::proofs::Lists::total_grown, crate::proofs::Lists::lists_grown))]
    pub(crate) fn add_place(&mut self) -> Result<(), AllocError>
        ensures { OnOk result (lists_in self.new.lists.items ≡ lists_in self.old.lists.items ++ [] ∷ []) }
    {
        let alloc = *self.lists.allocator();
        self.lists.push(Vec::new(alloc))?;
        Ok(())
    }

    /// The places are a race, in that word among others.
    pub(crate) fn meet(&mut self, first: u32, second: u32, word: Addr) -> Result<(), AllocError>
        requires { first < length (lists_in self.old.lists.items) }
        ensures same { length (lists_in self.new.lists.items) ≡ length (lists_in self.old.lists.items) }
        ensures met { OnOk result (lists_in self.new.lists.items ≡ met_at second word first (lists_in self.old.lists.items)) }
    {
        let more = match self.count.checked_add(1) {
            None => return Err(AllocError),
            Some(more) => more,
        };
        if meet_in(&mut self.lists[first as usize], second, word)? {
            self.count = more;
        }
        Ok(())
    }
}

// The word of the last of some races, if that is with this place.
#[tactic(auto, using(crate::proofs::Lists::last_with, crate::proofs::Lists::some_there, crate::proofs::Lists::last_without))]
fn last_with(list: &[Meeting], second: u32) -> Option<Addr>
    ensures { result ≡ last_meets second list.now }
{
    if list.is_empty() {
        return None;
    }
    let last = list[list.len() - 1];
    if last.second == second {
        Some(last.word)
    } else {
        None
    }
}

// Adds a race, unless it is the last one already, which then gets the lower word; whether it was added.
fn meet_in(list: &mut Vec<Meeting>, second: u32, word: Addr) -> Result<bool, AllocError>
    ensures met { OnOk result (list.new.items ≡ met second word list.old.items) }
    ensures grown { IfOk result (λ added. length list.new.items ≡ (if added then length list.old.items + 1 else length list.old.items)) }
    ensures err { OnErr result (list.new.items ≡ list.old.items) }
{
    match last_with(list, second) {
        None => {
            list.push(Meeting { second, word })?;
            Ok(true)
        }
        Some(found) => {
            let last = list.len() - 1;
            list[last] = Meeting {
                second,
                word: found.min(word),
            };
            Ok(false)
        }
    }
}
