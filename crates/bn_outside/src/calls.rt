//! Which calls of an object in memory are to fail.
ghost use Rattle.std.specs.Prelude.{◌≡◌, ◌↔◌, IsTrue};
ghost use Rattle.bn_outside.specs.Calls.{NextFails, after_call, fresh_calls};

use std::marker::Model;

/// The numbers of the calls that are to fail, and how many calls were made. The first call has
/// the number 1.
#[derive(Drop)]
pub struct FailingCalls {
    numbers: Vec<u64>,
    made: u64,
}

impl Model for FailingCalls {
    ghost use Rattle.bn_outside.specs.Calls.{Calls};

    ghost Value = { Calls };

    ghost view = { λ c. record { failing = c.numbers.items; made = c.made } };
}

impl FailingCalls {
    pub fn new(numbers: Vec<u64>) -> Self
        ensures { result ≡ fresh_calls numbers.items }
    {
        FailingCalls { numbers, made: 0 }
    }

    /// Counts one more call, and tells whether it is to fail.
    pub fn next_fails(&mut self) -> bool
        ensures answer { IsTrue result ↔ NextFails self.old }
        ensures after { self.new ≡ after_call self.old }
    {
        self.made = self.made.saturating_add(1);
        self.numbers.contains(&self.made)
    }
}
