//! Code that is decoded ahead, for harts that run many instructions.
//!
//! Decoding a word takes longer than doing its instruction. What runs a program for long makes a
//! [`DecodedImage`] of it once; what does single instructions or short runs calls
//! [`quiet_run_in_place`], which needs no memory.
ghost use Rattle.std.specs.Prelude.{◌≡◌, ◌≤◌, ◌<◌, ◌+◌, ◌-◌, ◌%◌, ◌^◌, min, true, false, is_some, length, IfOk, IfSome, OnErr, ℕ, List};
ghost use Rattle.bn_base.specs.Programs.{Program, code_at, part_at};
ghost use Rattle.rv_meaning.specs.Ahead.{start_of, starts_in_code, LeadsTo};
ghost use Rattle.rv_meaning.specs.Execute.{ask_of};
ghost use Rattle.rv_meaning.specs.Ops.{IsAhead, IsBelowEnd, Says, pc_of};
ghost use Rattle.rv_meaning.specs.Rows.{instruction_in, instruction_at};

use crate::asks::Want;
use crate::interpreter::quiet_run_in_place;
use crate::ops::{Op, Went, ask_memory, do_quiet};
use crate::walk::Walk;
use bn_base::{Addr, HartState, Image, Registers};
use rv_decode::decode;
use std::alloc::{AllocError, Global};
use std::marker::Model;

/// How many words are decoded ahead, at most.
// At 8 bytes a word the list stays within 8 MiB, whatever sizes a file's header claims.
const LIMIT: u32 = 1 << 20;

/// A program with the segment that it starts in decoded ahead, up to its first 2^20 words.
/// Contracts see the program.
///
/// It takes 8 bytes a word, and never changes: a `&DecodedImage` may be shared among the threads
/// that run the program's harts. Code in other segments, and words beyond the first 2^20, run too,
/// as slowly as without it.
#[derive(Drop)]
pub struct DecodedImage<'a> {
    image: &'a Image,
    first: Addr,
    ops: Vec<Op>,
}

impl<'a> Model for DecodedImage<'a> {
    ghost use Rattle.std.specs.Prelude.{◌≡◌, ◌≤◌, ◌<◌, ◌%◌, ◌^◌, length};
    ghost use Rattle.bn_base.specs.Programs.{Program};
    ghost use Rattle.rv_meaning.specs.Ops.{IsAhead, IsBelowEnd};

    ghost Value = { Program };

    ghost view = { λ d. d.image.now };

    ghost invariant = { λ d. IsAhead d.image.now d.first d.ops.items × IsBelowEnd d.first d.ops.items
        × (0 < length d.ops.items → d.first % 4 ≡ 0) × (length d.ops.items ≤ 2 ^ 20) };
}

// What the code words from `first` on decode to, at most `count` of them.
fn decoded_from(
    alloc: Global,
    image: &Image,
    first: Addr,
    count: u32,
) -> Result<Vec<Op>, AllocError>
    ensures ahead { IfOk result (λ v. IsAhead image.now first v.items) }
    ensures below { IfOk result (λ v. IsBelowEnd first v.items) }
    ensures aligned { IfOk result (λ v. 0 < length v.items → first % 4 ≡ 0) }
    ensures few { IfOk result (λ v. length v.items ≤ count) }
    ensures memory { OnErr result (is_some (code_at image.now first) ≡ true) }
{
    let mut ops = Vec::new(alloc);
    let mut addr = first;
    for _ in 0..count {
        match image.code(addr) {
            None => return Ok(ops),
            Some(word) => ops.push(Op::of(decode(word)))?,
        }
        match addr.checked_add(4) {
            None => return Ok(ops),
            Some(next) => addr = next,
        }
    }
    Ok(ops)
}

// The first address of the segment that a program starts in.
fn start_of(image: &Image) -> Addr
    ensures { result ≡ start_of (part_at image.now.parts image.now.entry) }
{
    match image.segment_at(image.entry()) {
        None => 0,
        Some(segment) => segment.first(),
    }
}

/// The place of a pc among the ops, if it has one.
#[inline(always)]
#[tactic(auto, using(crate::proofs::DecodedAhead::entered))]
pub(crate) fn place_in(ops: &[Op], first: Addr, pc: Addr) -> Option<usize>
    requires { IsBelowEnd first ops.now }
    ensures place { IfSome result (λ place. pc_of first place ≡ pc) }
    ensures within { IfSome result (λ place. place < length ops.now) }
{
    // One test is enough: the rotation moves the lowest two bits of the distance to the top, so a pc
    // below `first` or between two words gets a place past the end.
    let place = pc.wrapping_sub(first).rotate_right(2) as usize;
    if place >= ops.len() {
        return None;
    }
    Some(place)
}

/// Does quiet instructions from a place on, while there are ops and some of the budget is left. It gives the op that
/// isn't quiet, if it stops at one.
///
/// `end` is the place at which the budget would end if nothing jumped, and `stop` the place at which it or the list ends.
/// So an instruction that doesn't jump has its place alone to count, and one test serves both.
#[inline(always)]
pub(crate) fn run_quiet<'a>(
    ops: &'a [Op],
    first: Addr,
    x: &mut Registers,
    place: &mut usize,
    end: &mut usize,
    stop: &mut usize,
) -> Option<&'a Op>
    requires below { IsBelowEnd first ops.now }
    requires aligned { 0 < length ops.now → first % 4 ≡ 0 }
    requires end { place.old ≤ end.old }
    requires few { end.old ≤ place.old + 2 ^ 62 }
    requires low { end.old ≤ 2 ^ 62 + 2 ^ 30 }
    requires stop { stop.old ≡ min end.old (length ops.now) }
    ensures end { place.new ≤ end.new }
    ensures few { end.new ≤ place.new + 2 ^ 62 }
    ensures low { end.new ≤ 2 ^ 62 + 2 ^ 30 }
    ensures stop { stop.new ≡ min end.new (length ops.now) }
    ensures left { end.new - place.new ≤ end.old - place.old }
    ensures runs { (i : Program) (more : ℕ) → IsAhead i first ops.now →
        LeadsTo i (end.old - place.old + more) (pc_of first place.old) x.old (end.new - place.new + more) (pc_of first place.new) x.new }
    ensures some { is_some result ≡ true → place.new < end.new }
    ensures found { (i : Program) → IsAhead i first ops.now →
        IfSome result (λ op. Says op.now (instruction_in (code_at i (pc_of first place.new)))) }
{
    // In variables, which the compiler keeps in registers: what is behind a reference would be written each time.
    let mut here = *place;
    let mut over = *end;
    let mut past = *stop;
    let mut found = None;
    'quiet: while here < past {
        let op = &ops[here];
        let mut to = here;
        match do_quiet(op, first, &mut to, x) {
            Went::On => here = to,
            Went::Jumped => {
                over = over - (here + 1) + to;
                past = over.min(ops.len());
                here = to;
            }
            Went::Stopped => {
                found = Some(op);
                break 'quiet;
            }
        }
    }
    *place = here;
    *end = over;
    *stop = past;
    found
}

impl<'a> DecodedImage<'a> {
    /// Decodes the segment that the program starts in. It runs out of memory only if that segment is
    /// code.
    pub fn new(alloc: Global, image: &'a Image) -> Result<DecodedImage<'a>, AllocError>
        ensures value { IfOk result (λ d. d ≡ image.now) }
        ensures memory { OnErr result (starts_in_code image.now ≡ true) }
    {
        DecodedImage::with_limit(alloc, image, LIMIT)
    }

    /// Decodes at most `limit` words, and at most 2^20, of the segment that the program starts in. The error is as that
    /// of `new`.
    pub fn with_limit(
        alloc: Global,
        image: &'a Image,
        limit: u32,
    ) -> Result<DecodedImage<'a>, AllocError>
        ensures value { IfOk result (λ d. d ≡ image.now) }
        ensures memory { OnErr result (starts_in_code image.now ≡ true) }
    {
        let first = start_of(image);
        let ops = decoded_from(alloc, image, first, limit.min(LIMIT))?;
        Ok(DecodedImage { image, first, ops })
    }

    /// Does a hart's quiet instructions in place, as far as its code is decoded and the budget lasts. It gives what is
    /// left of the budget, and the op that it stopped at, if there is one: [`DecodedImage::ask`] continues from there.
    #[inline(always)]
    #[tactic(auto, using(crate::proofs::DecodedAhead::ahead_in, crate::proofs::DecodedAhead::leads_plain))]
    pub fn quiet_ops(&self, state: &mut HartState, budget: u64) -> (Option<&Op>, u64)
        ensures left { result.1 ≤ budget }
        ensures asks { ask_of self.now result.1 state.new ≡ ask_of self.now budget state.old }
        ensures some { is_some result.0 ≡ true → 0 < result.1 }
        ensures found { IfSome result.0 (λ op. Says op.now (instruction_at self.now state.new)) }
    {
        // The count at the budget's end: by it the loop has one number to count, what is left.
        let Some(end) = state.ic.checked_add(budget) else {
            return (None, budget);
        };
        let Some(mut walk) = self.walk(state.pc, budget) else {
            return (None, budget);
        };
        let found = walk.run(&mut state.x);
        let left = walk.left();
        state.pc = walk.pc();
        state.ic = end - left;
        (found, left)
    }

    /// A hart's way through the code from a pc, if that is decoded, with so much of its budget left.
    #[inline(always)]
    pub fn walk(&self, pc: Addr, left: u64) -> Option<Walk<'_>>
        ensures { IfSome result (λ walk. walk ≡ record { program = self.now; pc = pc; left = left }) }
    {
        Walk::new(self.image, self.ops.as_slice(), self.first, pc, left)
    }

    /// What a hart asks that stopped at this op, with so much of its budget left. A load or a store is asked by its op;
    /// else words are decoded as they come, up to the ask or the budget's end.
    #[inline(always)]
    pub fn ask(&self, found: Option<&Op>, state: &mut HartState, left: u64) -> Want
        requires some { is_some found ≡ true → 0 < left }
        requires found { IfSome found (λ op. Says op.now (instruction_at self.now state.old)) }
        ensures { record { state = state.new; want = result } ≡ ask_of self.now left state.old }
    {
        let mut want = Want::Cut;
        if let Some(op) = found {
            if ask_memory(op, self.image, &state.x, &mut want) {
                return want;
            }
        }
        // In a variable of its own: since no call sees the place of the result, a load or a store stays in registers.
        let slow = quiet_run_in_place(self.image, state, left);
        slow
    }

    /// As [`quiet_run_in_place`] of its program, and faster if the code is decoded. The state is
    /// changed in place, up to the instruction that asks; the reply to the want goes to
    /// [`absorb_in_place`](crate::absorb_in_place).
    #[inline(always)]
    pub fn quiet_run_in_place(&self, state: &mut HartState, budget: u64) -> Want
        ensures { record { state = state.new; want = result } ≡ ask_of self.now budget state.old }
    {
        let (found, left) = self.quiet_ops(state, budget);
        self.ask(found, state, left)
    }
}
