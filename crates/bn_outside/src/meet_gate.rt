//! A gate for tests at which all harts meet, so that they are known to run side by side.
ghost use Rattle.std.specs.Prelude.{◌≡◌, ◌↔◌, ◌<◌, ◌≤◌, IsTrue};

use crate::Gate;
use crate::patience::{MOST_YIELDS, Patience};
use bn_base::HartId;
use std::array;
use std::marker::Model;
use std::sync::atomic::{AtomicBool, AtomicU64, Ordering};

/// A gate that holds each hart's first pass until all harts have come to it, for at most
/// 10,000,000 yields. Later passes are not held, and once a wait ran out none is.
#[derive(Drop)]
pub struct MeetGate {
    harts: u8,
    came: [AtomicBool; 256],
    count: AtomicU64,
    patience: Patience,
}

impl Model for MeetGate {
    ghost use Rattle.std.specs.Prelude.{◌≡◌, ℕ, length};

    // How many harts are awaited.
    ghost Value = { ℕ };

    ghost view = { λ gate. gate.harts };

    ghost invariant = { λ gate. length gate.came ≡ 256 };
}

impl MeetGate {
    /// A gate for the harts below this number, none of which has come.
    pub fn new(harts: u8) -> Self
        ensures { result ≡ harts }
    {
        MeetGate::with_patience(harts, MOST_YIELDS)
    }

    /// The same, with waits of at most so many yields.
    pub fn with_patience(harts: u8, yields: u32) -> Self
        ensures { result ≡ harts }
    {
        MeetGate {
            harts,
            came: array::from_fn(|_| AtomicBool::new(false)),
            count: AtomicU64::new(0),
            patience: Patience::new(yields),
        }
    }

    /// Whether all harts have come, and no wait ran out.
    pub fn met(&self) -> bool {
        self.have_all_come() && !self.patience.ran_out()
    }

    fn have_all_come(&self) -> bool {
        self.is_all(self.count.load(Ordering::SeqCst))
    }

    // Whether that many are all harts.
    fn is_all(&self, count: u64) -> bool
        ensures { IsTrue result ↔ (self.now ≤ count) }
    {
        count >= u64::from(self.harts)
    }

    // Whether the hart is one of those that are to meet.
    fn is_awaited(&self, hart: HartId) -> bool
        ensures { IsTrue result ↔ (hart < self.now) }
    {
        hart < self.harts
    }

    // Marks that the hart has come, and tells whether it had come before.
    fn mark(&self, hart: HartId) -> bool {
        self.came[usize::from(hart)].swap(true, Ordering::SeqCst)
    }
}

impl Gate for MeetGate {
    fn pass(&self, hart: HartId) {
        if self.is_awaited(hart) && !self.mark(hart) {
            self.count.fetch_add(1, Ordering::SeqCst);
            self.patience.wait(|| self.have_all_come());
        }
    }

    fn served(&self, _hart: HartId) {}
}
