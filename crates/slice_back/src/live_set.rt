//! The live set of the pass back: registers and words that later rows of the slice use.
ghost use Rattle.std.specs.Prelude.{◌≡◌, ◌<◌, ◌/◌, ◌%◌, ◌*◌, ◌==◌, ◌&&◌, ◌||◌, ℕ, [], true, false, not, OnOk, IfSome};
ghost use Rattle.rv_meaning.specs.Words.{aligned};
ghost use Rattle.slice_back.specs.Uses.{is_of, is_word, uses_register, uses_word, stores_word, takes_word, word_of};
ghost use Rattle.slice_back.specs.Slices.{Live, live, live_before, writes_live, stores_live, gives};
ghost use Rattle.slice_back.specs.Sets.{Holds, has_register, has_word};

use crate::noted::Noted;
use crate::uses::{instruction_in, is_call, used_word, word_of};
use bn_base::{Addr, Register, Row};
use hart_replay::Words;
use std::alloc::{AllocError, Global};
use std::marker::Model;

/// The registers and aligned words that rows of a slice use and that no row told so far gives them.
/// Contracts see whether it has each.
#[derive(Drop)]
pub(crate) struct LiveSet {
    registers: [bool; 32],
    // The map of known words of `hart_replay`; their values don't matter.
    words: Words,
}

impl Model for LiveSet {
    ghost use Rattle.std.specs.Prelude.{◌≡◌, length};
    ghost use Rattle.slice_back.specs.Sets.{Held};

    ghost Value = { Held };

    ghost view = { λ s. record { registers = s.registers; pages = s.words.pages } };

    ghost invariant = { λ s. length s.registers ≡ 32 };
}

impl LiveSet {
    /// Nothing. It takes no memory.
    pub(crate) fn new(alloc: Global) -> LiveSet
        ensures { Holds result (live []) }
    {
        LiveSet {
            registers: [false; 32],
            words: Words::new(alloc),
        }
    }

    /// Whether a register is in it.
    pub(crate) fn has_register(&self, register: Register) -> bool
        ensures { result ≡ has_register self.now register }
    {
        self.registers[register.number() as usize]
    }

    /// Whether the aligned word of an address is in it.
    pub(crate) fn has_word(&self, addr: Addr) -> bool
        ensures { result ≡ has_word self.now (addr / 4) }
    {
        self.words.get(addr).is_some()
    }

    // Whether a row writes a register that is in it.
    fn writes(&self, reg: Option<(Register, u32)>) -> bool
        ensures { (l : Live) → Holds self.now l → result ≡ writes_live l reg }
    {
        match reg {
            None => false,
            Some((register, _)) => self.has_register(register),
        }
    }

    // Whether a row stores a word that is in it.
    fn stores(&self, store: Option<(Addr, u32)>) -> bool
        ensures { (l : Live) → Holds self.now l → result ≡ stores_live l (word_of store) }
    {
        match store {
            None => false,
            Some((addr, _)) => self.has_word(addr),
        }
    }

    /// Whether a row writes a register or stores a word that is in it.
    pub(crate) fn gives(&self, row: &Row) -> bool
        ensures { (l : Live) → Holds self.now l → gives l row.now ≡ result }
    {
        self.writes(row.reg) || self.stores(row.store)
    }

    // Takes out the register that a row wrote.
    fn forget_written(&mut self, reg: Option<(Register, u32)>)
        ensures registers { (q : ℕ) → q < 32 → has_register self.new q ≡ (not (is_of q reg) && has_register self.old q) }
        ensures pages { self.new.pages ≡ self.old.pages }
    {
        if let Some((register, _)) = reg {
            self.registers[register.number() as usize] = false;
        }
    }

    // Takes out the word that a row stored.
    fn forget_stored(&mut self, store: Option<(Addr, u32)>)
        ensures words { (k : ℕ) → has_word self.new k ≡ (not (is_word (4 * k) (word_of store)) && has_word self.old k) }
        ensures registers { self.new.registers ≡ self.old.registers }
    {
        if let Some((addr, _)) = store {
            self.words.forget(addr);
        }
    }

    // Adds a register, but not x0.
    fn use_one(&mut self, register: u8)
        requires { register < 32 }
        ensures registers { (q : ℕ) → q < 32 → has_register self.new q ≡ ((not (q == 0) && (q == register)) || has_register self.old q) }
        ensures pages { self.new.pages ≡ self.old.pages }
    {
        if register != 0 {
            self.registers[register as usize] = true;
        }
    }

    // Adds the registers that a row uses. Every ECALL uses a0, a1, a2 and a7, whatever its number. A row without an
    // instruction, EBREAK and FENCE use none.
    fn use_registers(&mut self, row: &Row)
        ensures registers { (q : ℕ) → q < 32 → has_register self.new q ≡ (uses_register q row.now || has_register self.old q) }
        ensures pages { self.new.pages ≡ self.old.pages }
    {
        match instruction_in(row.word) {
            None => (),
            Some(instr) => {
                if is_call(instr.name) {
                    self.use_one(10);
                    self.use_one(11);
                    self.use_one(12);
                    self.use_one(17);
                } else {
                    self.use_one(instr.rs1);
                    self.use_one(instr.rs2);
                }
            }
        }
    }

    // Adds them if the row is in the slice.
    fn use_registers_if(&mut self, chosen: bool, row: &Row)
        ensures registers { (q : ℕ) → q < 32 → has_register self.new q ≡ ((chosen && uses_register q row.now) || has_register self.old q) }
        ensures pages { self.new.pages ≡ self.old.pages }
    {
        if chosen {
            self.use_registers(row);
        }
    }

    // Takes out the word that a row takes from the log, else adds the one that it uses, if it is in the
    // slice.
    fn use_word(&mut self, chosen: bool, entry: &Noted) -> Result<(), AllocError>
        ensures words { OnOk result ((k : ℕ) → has_word self.new k ≡ (not (takes_word (4 * k) entry.now) && ((chosen && uses_word (4 * k) entry.now.row) || has_word self.old k))) }
        ensures registers { self.new.registers ≡ self.old.registers }
    {
        match used_word(&entry.row) {
            None => Ok(()),
            Some(word) => match entry.first_load {
                Some(_) => {
                    self.words.forget(word);
                    Ok(())
                }
                None => {
                    if chosen {
                        self.words.put(word, 0)
                    } else {
                        Ok(())
                    }
                }
            },
        }
    }

    /// Goes back over a row, which is in the slice or not: takes out what it gives, and adds what it
    /// uses.
    pub(crate) fn pass(&mut self, chosen: bool, entry: &Noted) -> Result<(), AllocError>
        ensures { OnOk result ((l : Live) → Holds self.old l → Holds self.new (live_before chosen entry.now l)) }
    {
        self.forget_written(entry.row.reg);
        self.forget_stored(entry.row.store);
        self.use_registers_if(chosen, &entry.row);
        self.use_word(chosen, entry)
    }
}
