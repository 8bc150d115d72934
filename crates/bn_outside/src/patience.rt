//! The waits of a gate, which run out so that no test hangs.
use std::sync::atomic::{AtomicBool, Ordering};
use std::thread;

/// How often one wait of a gate yields at most.
pub const MOST_YIELDS: u32 = 10_000_000;

/// How often the waits of a gate may yield, and whether one of them ran out.
#[derive(Drop)]
pub struct Patience {
    yields: u32,
    ran_out: AtomicBool,
}

impl Patience {
    ghost use Rattle.std.specs.Prelude.{◌≡◌};

    /// For waits of up to this many yields, none of which has run out.
    pub fn new(yields: u32) -> Self
        ensures { result.yields ≡ yields }
    {
        Patience {
            yields,
            ran_out: AtomicBool::new(false),
        }
    }

    /// Whether a wait ran out.
    pub fn ran_out(&self) -> bool {
        self.ran_out.load(Ordering::SeqCst)
    }

    /// Yields until the test holds. It runs out if the test doesn't hold after the last yield.
    /// Once one wait ran out, none yields any more.
    pub fn wait<F: Fn() -> bool>(&self, holds: F)
        requires { F.IsAlwaysCallable holds }
    {
        for _ in 0..self.yields {
            if holds() || self.ran_out() {
                return;
            }
            thread::yield_now();
        }
        if !holds() {
            self.ran_out.store(true, Ordering::SeqCst);
        }
    }
}
