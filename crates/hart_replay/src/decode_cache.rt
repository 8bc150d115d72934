//! The program of a replay, with what its code words decode to: a loop is not decoded again at each turn.
ghost use Rattle.std.specs.Prelude.{◌≡◌, ◌/◌, ◌%◌, option_map, IfSome, IfNone};
ghost use Rattle.hart_replay.specs.Common.{Program, seen, ask_of, fetched, instruction_in};
ghost use Rattle.hart_replay.specs.DecodeCaches.{IsLookup, AreLookups, IsQuietStep};

use bn_base::{Addr, HartId, HartState, Image, Register};
use rv_decode::{Instr, decode};
use rv_meaning::{Fetched, Want, quiet_run_in_place, step_in_place};
use std::alloc::{AllocError, Global};
use std::marker::Model;

/// How many look-ups are kept.
const KEPT: usize = 1024;

/// What was looked up at an address: the code word, the register that its instruction writes, and the
/// instruction.
#[derive(Clone, Copy, Drop)]
pub(crate) struct Lookup {
    pub(crate) pc: Addr,
    pub(crate) word: Option<u32>,
    pub(crate) rd: Option<Register>,
    instr: Option<Instr>,
}

/// A program, and what was looked up last at the addresses of its code: of those that have the same
/// slot in a table of 1,024, the latest. Contracts see the program.
///
/// The table takes 32 KiB, once there is a look-up to keep. When out of memory, nothing is kept.
#[derive(Drop)]
pub(crate) struct DecodeCache<'a> {
    image: &'a Image,
    kept: Vec<Lookup>,
}

impl<'a> Model for DecodeCache<'a> {
    ghost use Rattle.hart_replay.specs.DecodeCaches.{CacheOf, AreLookups};

    ghost Value = { CacheOf };

    ghost view = { λ c. record { now = c.image.now } };

    ghost invariant = { λ c. AreLookups c.image.now c.kept.items };
}

impl Lookup {
    // A slot in which nothing was looked up: no instruction has its pc, which is odd.
    fn empty() -> Lookup
        ensures { (i : Program) → IsLookup i result }
    {
        Lookup {
            pc: 1,
            word: None,
            rd: None,
            instr: None,
        }
    }
}

// The instruction that a word decodes to, if there is one.
fn instruction(word: Option<u32>) -> Option<Instr>
    ensures { option_map seen result ≡ instruction_in word }
{
    decode(word?)
}

// The slot of an address in the table.
fn slot_of(pc: Addr) -> usize
    ensures { result ≡ pc / 4 % 1024 }
{
    (pc / 4) as usize % KEPT
}

// Makes the table, if there is none and there is memory for it.
fn make_table(kept: &mut Vec<Lookup>)
    ensures { (i : Program) → AreLookups i kept.old.items → AreLookups i kept.new.items }
{
    if kept.first().is_none() {
        let alloc = *kept.allocator();
        if let Ok(made) = vec![in alloc; Lookup::empty(); KEPT] {
            *kept = made;
        }
    }
}

// Keeps a look-up in a slot of the table, if the table is there.
#[tactic(auto, using(crate::proofs::Lookups::set_lookups))]
fn keep(kept: &mut Vec<Lookup>, slot: usize, lookup: Lookup)
    ensures { (i : Program) → IsLookup i lookup → AreLookups i kept.old.items → AreLookups i kept.new.items }
{
    if slot < kept.len() {
        kept[slot] = lookup;
    }
}

impl<'a> DecodeCache<'a> {
    /// The program, without look-ups. It takes no memory.
    pub(crate) fn new(alloc: Global, image: &'a Image) -> DecodeCache<'a>
        ensures { result.now ≡ image.now }
    {
        DecodeCache {
            image,
            kept: Vec::new(alloc),
        }
    }

    /// The program.
    pub(crate) fn image(&self) -> &'a Image
        ensures { result.now ≡ self.now.now }
    {
        self.image
    }

    /// The instruction that a hart in this state does next.
    #[inline(always)]
    pub(crate) fn fetch(&mut self, hart: HartId, state: &HartState) -> Fetched
        ensures value { result ≡ fetched hart self.old.now state.now }
        ensures same { self.new ≡ self.old }
    {
        match self.kept.get(slot_of(state.pc)) {
            Some(kept) if kept.pc == state.pc => Fetched {
                hart,
                ic: state.ic,
                pc: kept.pc,
                word: kept.word,
                rd: kept.rd,
            },
            _ => self.look_up(hart, state),
        }
    }

    /// Does the instruction at the pc of a state, as [`quiet_run_in_place`] with a budget of 1. It need
    /// not be decoded again if its look-up is kept, as after a `fetch` there.
    #[inline(always)]
    pub(crate) fn step(&self, state: &mut HartState) -> Want
        ensures { record { state = state.new; want = result } ≡ ask_of self.now.now 1 state.old }
    {
        match self.kept.get(slot_of(state.pc)) {
            Some(kept) if kept.pc == state.pc => match &kept.instr {
                Some(instr) => step_in_place(instr, self.image, state),
                None => quiet_run_in_place(self.image, state, 1),
            },
            _ => quiet_run_in_place(self.image, state, 1),
        }
    }

    /// Does the instruction at the pc of a state, if its look-up is kept and it asks nothing, and gives what was looked up.
    /// Else the state stays.
    #[inline(always)]
    pub(crate) fn do_quiet(&self, state: &mut HartState) -> Option<&Lookup>
        ensures done { IfSome result (λ kept. IsQuietStep self.now.now kept.now state.old state.new) }
        ensures stays { IfNone result (state.new ≡ state.old) }
    {
        match self.kept.get(slot_of(state.pc)) {
            Some(kept) if kept.pc == state.pc => match &kept.instr {
                Some(instr) => match step_in_place(instr, self.image, state) {
                    Want::Cut => Some(kept),
                    _ => None,
                },
                None => None,
            },
            _ => None,
        }
    }

    // As `fetch`, for an address that isn't kept, which then is.
    #[inline(never)]
    fn look_up(&mut self, hart: HartId, state: &HartState) -> Fetched
        ensures value { result ≡ fetched hart self.old.now state.now }
        ensures same { self.new ≡ self.old }
    {
        let here = Fetched::at(hart, self.image, state);
        let lookup = Lookup {
            pc: here.pc,
            word: here.word,
            rd: here.rd,
            instr: instruction(here.word),
        };
        make_table(&mut self.kept);
        keep(&mut self.kept, slot_of(here.pc), lookup);
        here
    }

    /// The same program, without look-ups.
    pub(crate) fn copy(&self) -> DecodeCache<'a>
        ensures { result ≡ self.now }
    {
        DecodeCache::new(*self.kept.allocator(), self.image)
    }
}
