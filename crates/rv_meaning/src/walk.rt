//! A hart's way through code that is decoded ahead, over many of its turns.
ghost use Rattle.std.specs.Prelude.{◌≡◌, ◌≤◌, ◌<◌, ◌+◌, ◌-◌, ◌%◌, ℕ, true, false, is_some, length, slice_index, IfSome};
ghost use Rattle.bn_base.specs.Programs.{code_at};
ghost use Rattle.rv_meaning.specs.Ahead.{LeadsTo, AsksThere};
ghost use Rattle.rv_meaning.specs.Ops.{IsAhead, IsBelowEnd, Says};
ghost use Rattle.rv_meaning.specs.Rows.{instruction_in};
ghost use Rattle.rv_meaning.specs.Words.{add};
ghost use Rattle.rv_meaning.specs.declared.asks.Want.TheVariants.{Load, Store};

use crate::ahead::{place_in, run_quiet};
use crate::asks::Want;
use crate::ops::{Op, ask_memory, pc_of, word_load, word_store};
use bn_base::{Addr, Image, Registers};
use std::marker::Model;

// No budget is greater: so each place is in range.
const MOST: u64 = 1 << 62;

/// A hart's way through code that is decoded ahead: its place, and how many instructions it may still do. The hart
/// has the registers. Contracts see the program, the pc and that number.
#[derive(Drop)]
pub struct Walk<'a> {
    image: &'a Image,
    ops: &'a [Op],
    first: Addr,
    place: usize,
    // The place at which its budget would end if nothing jumped, and the one at which that or the ops end.
    end: usize,
    stop: usize,
}

impl<'a> Model for Walk<'a> {
    ghost use Rattle.std.specs.Prelude.{◌≡◌, ◌<◌, ◌≤◌, ◌+◌, ◌-◌, ◌%◌, ◌^◌, min, length};
    ghost use Rattle.rv_meaning.specs.Ahead.{Walking};
    ghost use Rattle.rv_meaning.specs.Ops.{IsAhead, IsBelowEnd, pc_of};

    ghost Value = { Walking };

    ghost view = { λ w. record { program = w.image.now; pc = pc_of w.first w.place; left = w.end - w.place } };

    ghost invariant = { λ w. IsAhead w.image.now w.first w.ops.now × IsBelowEnd w.first w.ops.now × (0 < length w.ops.now → w.first % 4 ≡ 0)
        × (w.place ≤ w.end) × (w.end ≤ w.place + 2 ^ 62) × (w.end ≤ 2 ^ 62 + 2 ^ 30) × (w.stop ≡ min w.end (length w.ops.now)) };
}

impl<'a> Walk<'a> {
    /// A way from a pc, if the ops have a place for it.
    #[inline(always)]
    pub(crate) fn new(
        image: &'a Image,
        ops: &'a [Op],
        first: Addr,
        pc: Addr,
        left: u64,
    ) -> Option<Walk<'a>>
        requires ahead { IsAhead image.now first ops.now }
        requires below { IsBelowEnd first ops.now }
        requires aligned { 0 < length ops.now → first % 4 ≡ 0 }
        ensures { IfSome result (λ walk. walk ≡ record { program = image.now; pc = pc; left = left }) }
    {
        if left > MOST {
            return None;
        }
        match place_in(ops, first, pc) {
            None => None,
            Some(place) => {
                let end = place + left as usize;
                Some(Walk {
                    image,
                    ops,
                    first,
                    place,
                    end,
                    stop: end.min(ops.len()),
                })
            }
        }
    }

    /// Does quiet instructions, while there are any and some of the budget is left. It gives the op that isn't quiet, if it
    /// stops at one.
    #[inline(always)]
    pub fn run(&mut self, x: &mut Registers) -> Option<&'a Op>
        ensures program { self.new.program ≡ self.old.program }
        ensures left { self.new.left ≤ self.old.left }
        ensures leads { (more : ℕ) → LeadsTo self.old.program (self.old.left + more) self.old.pc x.old (self.new.left + more) self.new.pc x.new }
        ensures some { is_some result ≡ true → 0 < self.new.left }
        ensures found { IfSome result (λ op. Says op.now (instruction_in (code_at self.new.program self.new.pc))) }
    {
        run_quiet(
            self.ops,
            self.first,
            x,
            &mut self.place,
            &mut self.end,
            &mut self.stop,
        )
    }

    /// Its pc.
    #[inline(always)]
    pub fn pc(&self) -> Addr
        ensures { result ≡ self.now.pc }
    {
        pc_of(self.first, self.place)
    }

    /// How many instructions it may still do.
    #[inline(always)]
    pub fn left(&self) -> u64
        ensures { result ≡ self.now.left }
    {
        (self.end - self.place) as u64
    }

    /// Moves to the next instruction.
    #[inline(always)]
    pub fn go_on(&mut self)
        requires { 0 < self.old.left }
        ensures { self.new ≡ record self.old { pc = add self.old.pc 4; left = self.old.left - 1 } }
    {
        self.place += 1;
    }

    /// The address from which the op that it is at loads a whole word, if it is such a load.
    #[inline(always)]
    pub fn word_load(&self, op: &Op, x: &Registers) -> Option<Addr>
        requires { Says op.now (instruction_in (code_at self.now.program self.now.pc)) }
        ensures { IfSome result (λ addr. AsksThere self.now x.now (Load addr 4 false op.now.rd)) }
    {
        match word_load(op, self.image, x) {
            None => None,
            Some(addr) => Some(addr),
        }
    }

    /// The address at which the op that it is at stores a whole word, if it is such a store.
    #[inline(always)]
    pub fn word_store(&self, op: &Op, x: &Registers) -> Option<Addr>
        requires { Says op.now (instruction_in (code_at self.now.program self.now.pc)) }
        ensures { IfSome result (λ addr. AsksThere self.now x.now (Store addr 4 (slice_index x.now op.now.rs2))) }
    {
        match word_store(op, self.image, x) {
            None => None,
            Some(addr) => Some(addr),
        }
    }

    /// What the op that it is at asks, if it is a load or a store.
    #[inline(always)]
    pub fn access(&self, op: &Op, x: &Registers) -> Option<Want>
        requires { Says op.now (instruction_in (code_at self.now.program self.now.pc)) }
        ensures { IfSome result (λ want. AsksThere self.now x.now want) }
    {
        let mut want = Want::Cut;
        if ask_memory(op, self.image, x, &mut want) {
            return Some(want);
        }
        None
    }
}
