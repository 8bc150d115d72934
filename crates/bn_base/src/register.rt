//! The number of a register. Its type has the range, so that no caller tests it.
ghost use Rattle.std.specs.Prelude.{◌≡◌, ◌<◌, ℕ};

use std::marker::Model;

/// The number of an integer register, x0 to x31 (RISC-V unprivileged ISA, 2.1). It is below 32.
#[derive(Clone, Copy, Debug, PartialEq, Eq, Drop)]
pub struct Register {
    number: u8,
}

impl Model for Register {
    ghost Value = { ℕ };

    ghost view = { λ r. r.number };

    ghost invariant = { λ r. r.number < 32 };

    ghost inverse = { λ n. record { number = n } };
}

impl Register {
    /// The register of that number.
    pub fn new(number: u8) -> Register
        requires { number < 32 }
        ensures { result ≡ number }
    {
        Register { number }
    }

    /// Its number, 0 to 31.
    pub fn number(self) -> u8
        ensures value { result ≡ self }
        ensures bound { result < 32 }
    {
        self.number
    }
}
