//! Flags of the ELF header and of segments.
ghost use Rattle.std.specs.Prelude.{⊤, ◌≡◌, [], ◌∷◌, codes};
ghost use Rattle.elf_loader.specs.Segments.{has_flag};

use bitflags::{Flag, Flags, bitflag_items};

/// A segment's permissions (ELF, "Segment Permissions"). Other bits stay, and mean nothing.
#[derive(Clone, Copy)]
pub struct SegmentFlags(u32);

bitflag_items! {
    impl SegmentFlags: u32 {
        const EXECUTE = 1;
        const WRITE = 2;
        const READ = 4;
    }
}

impl Flags for SegmentFlags {
    type Bits = u32;

    ghost exact = { ⊤ };

    ghost table = { (codes "EXECUTE", 1) ∷ (codes "WRITE", 2) ∷ (codes "READ", 4) ∷ [] };

    ghost set_of = { λ p. p.0 };

    fn flags<'a>() -> &'a [Flag<SegmentFlags>] {
        SegmentFlags::FLAGS
    }

    fn bits(&self) -> u32 {
        self.0
    }

    fn from_bits_retain(bits: u32) -> SegmentFlags {
        SegmentFlags(bits)
    }
}

/// What a program asks of the processor (RISC-V ELF psABI, "File Header", `e_flags`).
#[derive(Clone, Copy)]
pub struct ProcessorFlags(u32);

bitflag_items! {
    impl ProcessorFlags: u32 {
        const COMPRESSED = 1;
        const REGISTERS_E = 8;
    }
}

impl Flags for ProcessorFlags {
    type Bits = u32;

    ghost exact = { ⊤ };

    ghost table = { (codes "COMPRESSED", 1) ∷ (codes "REGISTERS_E", 8) ∷ [] };

    ghost set_of = { λ p. p.0 };

    fn flags<'a>() -> &'a [Flag<ProcessorFlags>] {
        ProcessorFlags::FLAGS
    }

    fn bits(&self) -> u32 {
        self.0
    }

    fn from_bits_retain(bits: u32) -> ProcessorFlags {
        ProcessorFlags(bits)
    }
}

/// Whether the words of a segment with these flags are code.
pub fn is_executable(flags: u32) -> bool
    ensures { result ≡ has_flag flags 1 }
{
    SegmentFlags::from_bits_retain(flags).contains(SegmentFlags::EXECUTE)
}

/// Whether stores may change them.
pub fn is_writable(flags: u32) -> bool
    ensures { result ≡ has_flag flags 2 }
{
    SegmentFlags::from_bits_retain(flags).contains(SegmentFlags::WRITE)
}

/// Whether a program has compressed instructions.
pub fn needs_compressed(flags: u32) -> bool
    ensures { result ≡ has_flag flags 1 }
{
    ProcessorFlags::from_bits_retain(flags).contains(ProcessorFlags::COMPRESSED)
}

/// Whether a program is for RV32E.
pub fn needs_e(flags: u32) -> bool
    ensures { result ≡ has_flag flags 8 }
{
    ProcessorFlags::from_bits_retain(flags).contains(ProcessorFlags::REGISTERS_E)
}
