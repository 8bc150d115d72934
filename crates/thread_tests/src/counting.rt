//! A gate that counts the turns that each hart's worker takes. Seed 0 passes no gate, so a turn that it takes isn't counted.
//! And a book for which memory runs out once.
ghost use Rattle.std.specs.Prelude.{[], false};

use bn_base::HartId;
use bn_outside::{Book, Gate, TurnRow};
use std::alloc::AllocError;
use std::sync::atomic::{AtomicU64, Ordering};

/// How often each of two harts came to the gate, and how often it was served.
#[derive(Drop)]
pub struct CountGate {
    passes: [AtomicU64; 2],
    served: [AtomicU64; 2],
}

impl CountGate {
    /// A gate to which no hart has come.
    pub fn new() -> CountGate {
        CountGate {
            passes: [AtomicU64::new(0), AtomicU64::new(0)],
            served: [AtomicU64::new(0), AtomicU64::new(0)],
        }
    }

    /// How often hart 0 was served, and hart 1.
    pub fn served(&self) -> (u64, u64) {
        counts(&self.served)
    }

    /// How often hart 0 came, and hart 1.
    pub fn passes(&self) -> (u64, u64) {
        counts(&self.passes)
    }
}

fn counts(of: &[AtomicU64; 2]) -> (u64, u64) {
    (of[0].load(Ordering::SeqCst), of[1].load(Ordering::SeqCst))
}

fn count(of: &[AtomicU64; 2], hart: HartId) {
    if let Some(number) = of.get(usize::from(hart)) {
        number.fetch_add(1, Ordering::SeqCst);
    }
}

impl Gate for CountGate {
    fn pass(&self, hart: HartId) {
        count(&self.passes, hart);
    }

    fn served(&self, hart: HartId) {
        count(&self.served, hart);
    }
}

/// A book that keeps no row, and has no room at the third call for it alone.
#[derive(Drop)]
pub struct ShortBook {
    calls: u64,
}

impl ShortBook {
    /// A book that wasn't called.
    pub fn new() -> ShortBook {
        ShortBook { calls: 0 }
    }
}

impl Book for ShortBook {
    ghost tells = { false };

    ghost told = { λ book. [] };

    ghost spare = { λ book. 1 };

    fn room(&mut self) -> Result<(), AllocError> {
        self.calls = self.calls.saturating_add(1);
        if self.calls == 3 {
            return Err(AllocError);
        }
        Ok(())
    }

    fn note(&mut self, _row: TurnRow) {}

    fn rows(&self) -> Option<&[TurnRow]> {
        None
    }

    fn clear(&mut self) {}
}
