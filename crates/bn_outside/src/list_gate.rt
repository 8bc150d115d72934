//! A gate for tests that lets turns pass in the order of a list.
ghost use Rattle.std.specs.Prelude.{◌≡◌, ◌↔◌, IfOk, IsTrue};
ghost use Rattle.bn_outside.specs.Gates.{IsNext, MayPass};

use crate::Gate;
use crate::patience::{MOST_YIELDS, Patience};
use bn_base::HartId;
use std::alloc::{AllocError, Global};
use std::marker::Model;
use std::sync::atomic::{AtomicUsize, Ordering};

/// A gate that lets the harts take their turns in the order of a list: it holds a pass until its
/// hart is the list's next, for at most 10,000,000 yields. A served turn moves the list on. After
/// its end no pass is held, and once a wait ran out none is either.
#[derive(Drop)]
pub struct ListGate {
    list: Vec<HartId>,
    place: AtomicUsize,
    patience: Patience,
}

impl Model for ListGate {
    ghost use Rattle.std.specs.Prelude.{ℕ, List};

    ghost Value = { List ℕ };

    ghost view = { λ gate. gate.list.items };
}

impl ListGate {
    /// A gate for this list of turns, before its first.
    pub fn new(alloc: Global, list: &[HartId]) -> Result<Self, AllocError>
        ensures { IfOk result (λ gate. gate ≡ list.now) }
    {
        ListGate::with_patience(alloc, list, MOST_YIELDS)
    }

    /// The same, with waits of at most so many yields.
    pub fn with_patience(alloc: Global, list: &[HartId], yields: u32) -> Result<Self, AllocError>
        ensures { IfOk result (λ gate. gate ≡ list.now) }
    {
        Ok(ListGate {
            list: Vec::from_slice(alloc, list)?,
            place: AtomicUsize::new(0),
            patience: Patience::new(yields),
        })
    }

    /// Whether no wait ran out.
    pub fn kept(&self) -> bool {
        !self.patience.ran_out()
    }

    // Whether the list has the hart at this place.
    fn is_next(&self, place: usize, hart: HartId) -> bool
        ensures { IsTrue result ↔ IsNext self.now place hart }
    {
        self.list.get(place) == Some(&hart)
    }

    // Whether the hart may pass while the list is at this place.
    fn may_pass(&self, place: usize, hart: HartId) -> bool
        ensures { IsTrue result ↔ MayPass self.now place hart }
    {
        place >= self.list.len() || self.is_next(place, hart)
    }
}

impl Gate for ListGate {
    fn pass(&self, hart: HartId) {
        self.patience
            .wait(|| self.may_pass(self.place.load(Ordering::SeqCst), hart));
    }

    fn served(&self, hart: HartId) {
        if self.is_next(self.place.load(Ordering::SeqCst), hart) {
            self.place.fetch_add(1, Ordering::SeqCst);
        }
    }
}
