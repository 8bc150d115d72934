//! The pass back over the rows up to a given one.
ghost use Rattle.std.specs.Prelude.{◌≡◌, ◌∷◌, ◌%◌, ◌&&◌, ◌||◌, ◌++◌, ℕ, [], List, slice_index, not, reverse, OnOk, IfOk};
ghost use Rattle.slice_back.specs.declared.noted.Noted.{Noted as NotedOf};
ghost use Rattle.slice_back.specs.Uses.{is_branch, stores_word};
ghost use Rattle.slice_back.specs.Slices.{Live, in_slice, is_last, taken, word_if, row_if, register_if, registers_from, slice_of};
ghost use Rattle.slice_back.specs.Sets.{Holds, has_register};
ghost use Rattle.slice_back.specs.Passes.{TellsLive};

use crate::lists::Slice;
use crate::live_set::LiveSet;
use crate::noted::Noted;
use crate::uses::{is_branch, used_word, word_of};
use bn_base::{Addr, Ic, List as ListOf, Register, Registers, Row};
use std::alloc::{AllocError, Global};

// Adds a row, if it is chosen.
fn push_if(rows: &mut Vec<Row>, chosen: bool, row: &Row) -> Result<(), AllocError>
    ensures { OnOk result (reverse rows.new.items ≡ row_if chosen row.now (reverse rows.old.items)) }
{
    if chosen {
        // The checker has no proof of a `push` of rows.
        rows.extend_from_slice(&[*row])
    } else {
        Ok(())
    }
}

/// What is told of a slice so far, the latest row first.
#[derive(Drop)]
pub(crate) struct Slicing {
    pub(crate) set: LiveSet,
    pub(crate) rows: Vec<Row>,
    pub(crate) words: Vec<(Ic, Addr, u32)>,
    pub(crate) branches: Vec<Row>,
}

impl Slicing {
    // Before the last row.
    fn new(alloc: Global) -> Slicing
        ensures { TellsLive result [] }
    {
        Slicing {
            set: LiveSet::new(alloc),
            rows: Vec::new(alloc),
            words: Vec::new(alloc),
            branches: Vec::new(alloc),
        }
    }

    // Whether a row is in the slice.
    fn chooses(&self, last: bool, entry: &Noted) -> bool
        ensures { (later : List NotedOf) → is_last later ≡ last → TellsLive self.now later → in_slice entry.now later ≡ result }
    {
        last || self.set.gives(&entry.row)
    }

    // Whether the word that a row takes is for a row of the slice.
    fn is_wanted(&self, chosen: bool, word: Addr, row: &Row) -> bool
        requires { word % 4 ≡ 0 }
        ensures { (l : Live) → Holds self.now.set l → (chosen || (not (stores_word word row.now) && l.words word)) ≡ result }
    {
        chosen || (word_of(row.store) != Some(word) && self.set.has_word(word))
    }

    // The word that a row takes from the log for a row of the slice.
    fn taken(&self, chosen: bool, entry: &Noted) -> Option<(Addr, u32)>
        ensures { (l : Live) → Holds self.now.set l → result ≡ taken chosen l entry.now }
    {
        match used_word(&entry.row) {
            None => None,
            Some(word) => match entry.first_load {
                None => None,
                Some(value) => {
                    if self.is_wanted(chosen, word, &entry.row) {
                        Some((word, value))
                    } else {
                        None
                    }
                }
            },
        }
    }

    // Tells the word that a row takes.
    fn tell_word(&mut self, chosen: bool, entry: &Noted) -> Result<(), AllocError>
        ensures words { OnOk result ((l : Live) → Holds self.old.set l → reverse self.new.words.items ≡ word_if entry.now.row.ic (taken chosen l entry.now) (reverse self.old.words.items)) }
        ensures rest { self.new ≡ record self.old { words = self.new.words } }
    {
        match self.taken(chosen, entry) {
            None => Ok(()),
            Some((word, value)) => {
                self.words.push((entry.row.ic, word, value))?;
                Ok(())
            }
        }
    }

    // Tells a row of the slice, or a branch that isn't in it.
    fn tell_row(&mut self, chosen: bool, row: &Row) -> Result<(), AllocError>
        ensures rows { OnOk result (reverse self.new.rows.items ≡ row_if chosen row.now (reverse self.old.rows.items)) }
        ensures branches { OnOk result (reverse self.new.branches.items ≡ row_if (not chosen && is_branch row.now) row.now (reverse self.old.branches.items)) }
        ensures rest { (self.new.set ≡ self.old.set) × (self.new.words ≡ self.old.words) }
    {
        push_if(&mut self.rows, chosen, row)?;
        push_if(&mut self.branches, !chosen && is_branch(row), row)
    }

    // Goes back over a row, the last one first.
    fn pass(&mut self, last: bool, entry: &Noted) -> Result<(), AllocError>
        ensures { OnOk result ((later : List NotedOf) → is_last later ≡ last → TellsLive self.old later → TellsLive self.new (entry.now ∷ later)) }
    {
        let chosen = self.chooses(last, entry);
        self.tell_word(chosen, entry)?;
        self.tell_row(chosen, &entry.row)?;
        self.set.pass(chosen, entry)
    }

    // Goes back over all rows.
    fn over(alloc: Global, noted: &[Noted]) -> Result<Slicing, AllocError>
        ensures { IfOk result (λ s. TellsLive s noted.now) }
    {
        let mut slicing = Slicing::new(alloc);
        let count = noted.len();
        for passed in 0..count {
            slicing.pass(passed == 0, &noted[count - 1 - passed])?;
        }
        Ok(slicing)
    }

    // The lists, the oldest row first.
    fn into_slice(self, regs: Vec<(Register, u32)>) -> Slice
        ensures { result ≡ record { rows = reverse self.rows.items; regs = regs.items; words = reverse self.words.items; branches = reverse self.branches.items } }
    {
        let mut rows = self.rows;
        let mut words = self.words;
        let mut branches = self.branches;
        rows.reverse();
        words.reverse();
        branches.reverse();
        Slice {
            rows: ListOf::from_vec(rows),
            regs: ListOf::from_vec(regs),
            words: ListOf::from_vec(words),
            branches: ListOf::from_vec(branches),
        }
    }
}

// Adds a register with its contents, if the set has it.
fn push_register(
    regs: &mut Vec<(Register, u32)>,
    set: &LiveSet,
    x: &Registers,
    register: Register,
) -> Result<(), AllocError>
    ensures { OnOk result ((more : List (ℕ × ℕ)) → regs.new.items ++ more ≡ regs.old.items ++ register_if (has_register set.now register) (register, slice_index x.now register) more) }
{
    if set.has_register(register) {
        regs.push((register, x.get(register)))?;
    }
    Ok(())
}

// The registers of a set, with their contents.
fn contents(alloc: Global, set: &LiveSet, x: &Registers) -> Result<Vec<(Register, u32)>, AllocError>
    ensures { IfOk result (λ regs. regs.items ≡ registers_from x.now (has_register set.now) 0 32) }
{
    let mut regs = Vec::new(alloc);
    for number in 0..32u8 {
        push_register(&mut regs, set, x, Register::new(number))?;
    }
    Ok(regs)
}

/// The slice of the last of some rows, by the registers before the first.
#[tactic(auto, using(crate::proofs::Backs::sliced_back))]
pub(crate) fn slice_of(alloc: Global, x: &Registers, noted: &[Noted]) -> Result<Slice, AllocError>
    ensures { IfOk result (λ s. s ≡ slice_of x.now noted.now) }
{
    let slicing = Slicing::over(alloc, noted)?;
    let regs = contents(alloc, &slicing.set, x)?;
    Ok(slicing.into_slice(regs))
}
