//! The contents of the registers, as harts run on them and as Headers store them.
ghost use Rattle.std.specs.Prelude.{◌≡◌, ◌<◌, ℕ, List, length, slice_index, drop};
ghost use Rattle.bn_base.specs.Registers.{put_reg};

use crate::register::Register;
use std::marker::Model;

/// The contents of the 32 integer registers; x0 always holds 0 (RISC-V unprivileged ISA, 2.1).
#[derive(Clone, Copy, PartialEq, Eq, Drop)]
pub struct Registers {
    contents: [u32; 32],
}

impl Model for Registers {
    ghost Value = { List ℕ };

    ghost view = { λ r. r.contents };

    ghost invariant = { λ r. slice_index r.contents 0 ≡ 0 };

    ghost inverse = { λ xs. record { contents = xs } };
}

impl Registers {
    /// The registers with these contents, x0 first.
    pub fn new(contents: [u32; 32]) -> Registers
        requires { slice_index contents 0 ≡ 0 }
        ensures { result ≡ contents }
    {
        Registers { contents }
    }

    /// All contents, x0 first.
    pub fn contents(&self) -> [u32; 32]
        ensures value { result ≡ self.now }
        ensures count { length self.now ≡ 32 }
        ensures zero { slice_index self.now 0 ≡ 0 }
    {
        self.contents
    }

    /// The contents of x1 to x31, x1 first: files don't store x0.
    pub fn others(&self) -> &[u32]
        ensures value { result.now ≡ drop 1 self.now }
        ensures count { length result.now ≡ 31 }
    {
        &self.contents[1..]
    }

    /// What a register holds.
    pub fn get(&self, register: Register) -> u32
        ensures { result ≡ slice_index self.now register }
    {
        self.contents[register.number() as usize]
    }

    /// Writes a register. A write to x0 changes nothing.
    pub fn put(&mut self, register: Register, value: u32)
        ensures { self.new ≡ put_reg register value self.old }
    {
        // (without a branch on the register: x0 gets its 0 back after each write)
        self.contents[register.number() as usize] = value;
        self.contents[0] = 0;
    }
}
