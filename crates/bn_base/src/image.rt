//! A program as loaded: its segments and its entry. Recorders and replays read code and first values from it.
ghost use Rattle.std.specs.Prelude.{◌≡◌, ◌≤◌, ◌%◌, ◌^◌, ℕ, true, Some, None, IfOk, IfSome, MatchOption};
ghost use Rattle.std.specs.Bool.{Decides};
ghost use Rattle.std.specs.Cmp.{and_per, on_per};
ghost use Rattle.std.specs.Cmp.Lexicographic.{lists_per};
ghost use Rattle.std.specs.Cmp.Rules.{comparing};
ghost use Rattle.std.proofs.Common.{rules};
ghost use Rattle.bn_base.specs.Programs.{Program, AreApart, is_in, is_writable, part_at, highest_end, read_only_end, code_at, first_at, may_load, may_store, heap_start, heap_limit};
ghost use Rattle.bn_base.specs.Compared.{same_part, same_program};

use crate::Addr;
use crate::segment::Segment;
use crate::settings::Settings;
use std::alloc::AllocError;
use std::marker::Model;

/// A program as loaded, which no run changes. Its mapped addresses are 4,096 to the memory's size.
///
/// Each look-up takes time logarithmic in the number of segments, and no memory.
#[derive(Drop)]
pub struct Image {
    segments: Vec<Segment>,
    entry: Addr,
    memory: u32,
    harts: u8,
    // Most stores go past the last read-only segment: one comparison spares them the look-up.
    writable_from: u64,
}

impl Model for Image {
    ghost use Rattle.std.specs.Prelude.{◌≡◌};
    ghost use Rattle.bn_base.specs.Programs.{Program, IsProgram, read_only_end};

    ghost Value = { Program };

    ghost view = { λ i. record { parts = i.segments.items; entry = i.entry; memory = i.memory; harts = i.harts } };

    ghost invariant = { λ i. IsProgram (record { parts = i.segments.items; entry = i.entry; memory = i.memory; harts = i.harts })
        × (i.writable_from ≡ read_only_end i.segments.items) };
}

// The end of the last read-only segment, 0 if there is none.
fn read_only_end(segments: &[Segment]) -> u64
    ensures { result ≡ read_only_end segments.now }
{
    let mut end = 0;
    for segment in segments {
        if !segment.is_writable() {
            end = end.max(segment.end());
        }
    }
    end
}

impl PartialEq for Image {
    ghost eq = { same_program };

    ghost laws = { and_per
        (and_per
        (and_per (on_per (λ i. i.parts) (lists_per {E = same_part} (Prim.search (comparing, rules) depth 9))) (on_per (λ i. i.entry) (Prim.search (comparing, rules))))
        (on_per (λ i. i.memory) (Prim.search (comparing, rules))))
        (on_per (λ i. i.harts) (Prim.search (comparing, rules))) };

    /// Whether they are the same program.
    #[tactic(auto, using(crate::proofs::Compared::parts_decide))]
    fn eq(&self, other: &Image) -> bool
        ensures value { result ≡ same_program self.now other.now }
        ensures same { Decides result (self.now ≡ other.now) }
    {
        self.segments == other.segments
            && self.entry == other.entry
            && self.memory == other.memory
            && self.harts == other.harts
    }
}

impl Image {
    /// The program of segments by ascending address, no two with a common word, all mapped.
    pub fn new(segments: Vec<Segment>, entry: Addr, settings: &Settings) -> Image
        requires { AreApart 4096 settings.now.memory segments.items }
        ensures { result ≡ record { parts = segments.items; entry = entry; memory = settings.now.memory; harts = settings.now.harts } }
    {
        let memory = settings.memory();
        let writable_from = read_only_end(segments.as_slice());
        Image {
            writable_from,
            segments,
            entry,
            memory,
            harts: settings.harts(),
        }
    }

    /// The segments by ascending address.
    pub fn segments(&self) -> &[Segment]
        ensures value { result.now ≡ self.now.parts }
        ensures apart { AreApart 4096 self.now.memory self.now.parts }
    {
        self.segments.as_slice()
    }

    /// The segment that an address is in. Several look-ups nearby may ask it once.
    pub fn segment_at(&self, addr: Addr) -> Option<&Segment>
        ensures found { MatchOption result (part_at self.now.parts addr ≡ None) (λ s. part_at self.now.parts addr ≡ Some s.now) }
        ensures inside { IfSome result (λ s. is_in s.now addr ≡ true) }
    {
        let place = self.segments.partition_point(|s| s.first() <= addr);
        if place == 0 {
            return None;
        }
        let segment = &self.segments[place - 1];
        if segment.has(addr) {
            Some(segment)
        } else {
            None
        }
    }

    /// The code word at an address; `None` outside executable segments and at unaligned addresses.
    pub fn code(&self, addr: Addr) -> Option<u32>
        ensures { result ≡ code_at self.now addr }
    {
        if addr % 4 != 0 {
            return None;
        }
        match self.segment_at(addr) {
            None => None,
            Some(segment) => {
                if segment.is_executable() {
                    Some(segment.word(addr))
                } else {
                    None
                }
            }
        }
    }

    /// The aligned word that holds an address, as it is before the run; 0 outside the segments.
    pub fn first(&self, addr: Addr) -> u32
        ensures { result ≡ first_at self.now addr }
    {
        match self.segment_at(addr) {
            None => 0,
            Some(segment) => segment.word(addr),
        }
    }

    /// Whether an address is mapped.
    pub fn may_load(&self, addr: Addr) -> bool
        ensures { result ≡ may_load self.now addr }
    {
        4096 <= addr && addr < self.memory
    }

    /// Whether an address is mapped and not read-only.
    #[inline(always)]
    pub fn may_store(&self, addr: Addr) -> bool
        ensures { result ≡ may_store self.now addr }
    {
        self.may_load(addr) && (self.writable_from <= addr as u64 || self.is_writable(addr))
    }

    #[inline(never)]
    fn is_writable(&self, addr: Addr) -> bool
        ensures { result ≡ is_writable (part_at self.now.parts addr) }
    {
        match self.segment_at(addr) {
            None => true,
            Some(segment) => segment.is_writable(),
        }
    }

    /// The pc at which every hart starts.
    pub fn entry(&self) -> Addr
        ensures { result ≡ self.now.entry }
    {
        self.entry
    }

    /// The size of the address space in bytes.
    pub fn memory(&self) -> u32
        ensures value { result ≡ self.now.memory }
        ensures low { 65536 ≤ result }
        ensures high { result ≤ 2 ^ 26 }
        ensures pages { result % 4096 ≡ 0 }
    {
        self.memory
    }

    /// The number of harts that run it.
    pub fn harts(&self) -> u8
        ensures { result ≡ self.now.harts }
    {
        self.harts
    }

    fn highest_end(&self) -> u64
        ensures value { result ≡ highest_end self.now.parts }
        ensures bound { result ≤ self.now.memory }
    {
        match self.segments.last() {
            None => 0,
            Some(segment) => segment.end(),
        }
    }

    /// The address at which the heap begins: the end of the highest segment, rounded up to 4,096.
    pub fn heap_start(&self) -> Addr
        ensures value { result ≡ heap_start self.now }
        ensures bound { result ≤ self.now.memory }
    {
        let _memory = self.memory;
        ((self.highest_end() + 4095) / 4096 * 4096) as u32
    }

    /// How far the heap may grow: memory less 65,536 for each hart, or the heap's start if that is
    /// greater.
    pub fn heap_limit(&self) -> Addr
        ensures value { result ≡ heap_limit self.now }
        ensures bound { result ≤ self.now.memory }
    {
        // With many harts and little memory the difference would be negative: so it saturates.
        let stacks = 65_536 * self.harts as u32;
        self.heap_start().max(self.memory.saturating_sub(stacks))
    }

    /// An equal image.
    pub fn copy(&self) -> Result<Image, AllocError>
        ensures { IfOk result (λ i. i ≡ self.now) }
    {
        let mut segments = Vec::with_capacity(*self.segments.allocator(), self.segments.len())?;
        for segment in &self.segments {
            segments.push(segment.copy()?)?;
        }
        Ok(Image {
            segments,
            entry: self.entry,
            memory: self.memory,
            harts: self.harts,
            writable_from: self.writable_from,
        })
    }
}
