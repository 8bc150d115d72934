//! Powers of two as divisors.
ghost use Rattle.std.specs.Prelude.{◌≡◌, ◌+◌, ◌≤◌, ◌%◌, ◌^◌};

/// A power of two, with the mask of the bits below it: so a remainder by it takes one instruction.
#[derive(Clone, Copy, Drop)]
pub struct Power {
    /// Which power it is.
    pub bits: u32,
    mask: u32,
    ghost below: { mask + 1 ≡ 2 ^ bits },
}

impl Power {
    /// Two to the power of `bits`.
    pub(crate) fn of(bits: u32) -> Power
        requires { bits ≤ 12 }
        ensures { result.bits ≡ bits }
    {
        Power {
            bits,
            mask: (1 << bits) - 1,
        }
    }

    /// The remainder of a number.
    #[inline(always)]
    pub(crate) fn rest(&self, number: u32) -> u32
        ensures { result ≡ number % 2 ^ self.now.bits }
    {
        number & self.mask
    }
}
