//! Why an instruction can't be done. Logs store the numbers, and texts have the names.
ghost use Rattle.std.specs.Prelude.{◌≡◌, ◌<◌, ◌⊎◌, ◌↔◌, ℕ, IsNone, IfSome};
ghost use Rattle.bn_base.specs.Faults.{fault_number, fault_name};

/// Why an instruction can't be done. The faulting instruction changes nothing and isn't counted.
#[derive(Clone, Copy, Debug, PartialEq, Eq, Drop)]
pub enum Fault {
    /// The word is no instruction of RV32IMA; the fault's value is the word.
    Illegal,
    /// EBREAK (RISC-V unprivileged ISA, 2.8); the value is 0.
    Breakpoint,
    /// The pc isn't at a code word; the value is the pc.
    FetchOutside,
    /// A jump or a taken branch to an address that is no multiple of 4; the value is the target.
    TargetMisaligned,
    /// A load or LR from an unmapped address, which is the value.
    LoadOutside,
    /// A load or LR from an address that isn't a multiple of its width; the value is the address.
    LoadMisaligned,
    /// A store, SC or AMO to an unmapped address, which is the value.
    StoreOutside,
    /// A store, SC or AMO to an address that isn't a multiple of its width; the value is the address.
    StoreMisaligned,
    /// A store, SC or AMO to a read-only word; the value is the address.
    StoreReadOnly,
}

impl Fault {
    /// Its number in log files, 1 to 9 in the order of the variants.
    pub fn number(self) -> u8
        ensures { result ≡ fault_number self }
    {
        match self {
            Fault::Illegal => 1,
            Fault::Breakpoint => 2,
            Fault::FetchOutside => 3,
            Fault::TargetMisaligned => 4,
            Fault::LoadOutside => 5,
            Fault::LoadMisaligned => 6,
            Fault::StoreOutside => 7,
            Fault::StoreMisaligned => 8,
            Fault::StoreReadOnly => 9,
        }
    }

    /// The fault of that number; `None` if it isn't 1 to 9.
    pub fn from_number(number: u8) -> Option<Fault>
        ensures same { IfSome result (λ f. fault_number f ≡ number) }
        ensures none { IsNone result ↔ ((number ≡ 0) ⊎ (9 < number)) }
    {
        match number {
            1 => Some(Fault::Illegal),
            2 => Some(Fault::Breakpoint),
            3 => Some(Fault::FetchOutside),
            4 => Some(Fault::TargetMisaligned),
            5 => Some(Fault::LoadOutside),
            6 => Some(Fault::LoadMisaligned),
            7 => Some(Fault::StoreOutside),
            8 => Some(Fault::StoreMisaligned),
            9 => Some(Fault::StoreReadOnly),
            _ => None,
        }
    }

    /// Its name, as it is printed.
    #[tactic(auto, unfolding(crate::specs::Faults::fault_name))]
    pub fn name(self) -> &'static str
        ensures { result.now ≡ fault_name self }
    {
        match self {
            Fault::Illegal => "Illegal",
            Fault::Breakpoint => "Breakpoint",
            Fault::FetchOutside => "FetchOutside",
            Fault::TargetMisaligned => "TargetMisaligned",
            Fault::LoadOutside => "LoadOutside",
            Fault::LoadMisaligned => "LoadMisaligned",
            Fault::StoreOutside => "StoreOutside",
            Fault::StoreMisaligned => "StoreMisaligned",
            Fault::StoreReadOnly => "StoreReadOnly",
        }
    }
}
