//! The words that harts have reserved, by LR, and what ends a reservation.
ghost use Rattle.std.specs.Prelude.{◌≡◌, ◌<◌, ◌+◌, ◌*◌, ◌==◌, ℕ, Option, None, cond};
ghost use Rattle.bn_base.specs.declared.settings.TheConstants.{HARTS};
ghost use Rattle.run_model.specs.Machine.{reserving, unless, others_lose, is_among, all_lose, is_reserved};
ghost use Rattle.run_model.specs.Represents.Parts.{AreReserved};

use bn_base::{Addr, HARTS, HartId};
use std::marker::Model;

/// The aligned word that each hart has reserved, if it has one.
#[derive(Drop)]
pub(crate) struct Reservations {
    of: [Option<Addr>; HARTS],
    // Whether a hart made one so far. Before that there is nothing to end.
    made: bool,
}

impl Model for Reservations {
    ghost use Rattle.std.specs.Prelude.{◌≡◌, ℕ, false, List, Option, None, length, get_or};
    ghost use Rattle.bn_base.specs.declared.settings.TheConstants.{HARTS};

    ghost Value = { List (Option ℕ) };

    ghost view = { λ r. r.of };

    ghost invariant = { λ r. (length r.of ≡ HARTS) × (r.made ≡ false → (k : ℕ) → get_or r.of k None ≡ None) };
}

// A hart's reservation after another hart wrote a word.
fn kept_of_word(own: Option<Addr>, addr: Addr) -> Option<Addr>
    ensures { result ≡ unless (λ b. b == addr) own }
{
    match own {
        Some(word) if word != addr => own,
        _ => None,
    }
}

// Hart k's reservation after a hart wrote a word.
fn after_write(own: Option<Addr>, k: usize, hart: HartId, addr: Addr) -> Option<Addr>
    ensures { result ≡ cond (k == hart) own (unless (λ b. b == addr) own) }
{
    if k == hart as usize {
        own
    } else {
        kept_of_word(own, addr)
    }
}

// Whether an aligned word is one of so many from the first on.
fn is_among(first: Addr, count: u32, addr: Addr) -> bool
    ensures { result ≡ is_among first count addr }
{
    first <= addr && (addr as u64) < first as u64 + 4 * count as u64
}

// A reservation after so many words from the first on were filled.
fn after_fill(own: Option<Addr>, first: Addr, count: u32) -> Option<Addr>
    ensures { result ≡ unless (is_among first count) own }
{
    match own {
        Some(word) if !is_among(first, count, word) => own,
        _ => None,
    }
}

impl Reservations {
    /// No hart has a reservation.
    pub fn new() -> Reservations
        ensures { AreReserved result (λ k. None) }
    {
        Reservations {
            of: [None; HARTS],
            made: false,
        }
    }

    /// Whether a hart has reserved an aligned word.
    pub fn has(&self, hart: HartId, addr: Addr) -> bool
        requires { hart < HARTS }
        ensures { (f : ℕ → Option ℕ) → AreReserved self.now f → result ≡ is_reserved (f hart) addr }
    {
        match self.of[hart as usize] {
            Some(word) => word == addr,
            None => false,
        }
    }

    /// Makes or ends a hart's own reservation.
    pub fn set(&mut self, hart: HartId, own: Option<Addr>)
        requires { hart < HARTS }
        ensures { (f : ℕ → Option ℕ) → AreReserved self.old f → AreReserved self.new (reserving hart own f) }
    {
        self.made = self.made || own.is_some();
        self.of[hart as usize] = own;
    }

    /// A hart wrote an aligned word: the other harts' reservations of it end.
    #[tactic(auto, using(crate::proofs::EachHart::made_stays))]
    pub fn end_others(&mut self, hart: HartId, addr: Addr)
        ensures { (f : ℕ → Option ℕ) → AreReserved self.old f → AreReserved self.new (others_lose hart addr f) }
    {
        if self.made {
            for k in 0..HARTS {
                self.of[k] = after_write(self.of[k], k, hart, addr);
            }
        }
    }

    /// So many words from the first on were filled: all harts' reservations of them end.
    #[tactic(auto, using(crate::proofs::EachHart::made_stays))]
    pub fn end_among(&mut self, first: Addr, count: u32)
        ensures { (f : ℕ → Option ℕ) → AreReserved self.old f → AreReserved self.new (all_lose first count f) }
    {
        if self.made {
            for k in 0..HARTS {
                self.of[k] = after_fill(self.of[k], first, count);
            }
        }
    }
}
