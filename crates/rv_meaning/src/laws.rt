//! What holds of the meaning of instructions. These functions do nothing: their contracts are
//! theorems.
ghost use Rattle.std.specs.Prelude.{◌≡◌, ◌<◌, ◌≤◌, ◌+◌, ◌^◌, ℕ, false, IsTrue};
ghost use Rattle.rv_meaning.specs.Common.{Program, HartState};
ghost use Rattle.rv_meaning.specs.Execute.{Quiet, Asks, step, ask_of, count_up};
ghost use Rattle.rv_meaning.specs.Orderly.{is_cut, passes, orderly};
ghost use Rattle.rv_meaning.specs.WordStates.{AreWords};
ghost use Rattle.rv_meaning.specs.declared.asks.Want.{Want};

/// Each instruction is quiet, and then the count goes up by one, or it asks, and then its ask is
/// no cut and passes the program's tests.
pub fn each_instruction_is_counted_or_asks()
    ensures counted { (i : Program) (s t : HartState) → step i s ≡ Quiet t → t.ic ≡ count_up s.ic }
    ensures asks { (i : Program) (s : HartState) (w : Want) → step i s ≡ Asks w → (is_cut w ≡ false) × IsTrue (passes i w) }
{}

/// What a hart asks is orderly for its count and budget, and its count passes that of the hart by
/// no more than the budget.
#[tactic(auto, using(crate::proofs::Orderly::ask_count, crate::proofs::Orderly::ask_orderly))]
pub fn each_ask_is_orderly()
    ensures count { (i : Program) (budget : ℕ) (s : HartState) → (ask_of i budget s).state.ic ≤ s.ic + budget }
    ensures orderly { (i : Program) (budget : ℕ) (s : HartState) → s.ic + budget < 2 ^ 64 → IsTrue (orderly i s.ic budget (ask_of i budget s)) }
{}

/// If the registers hold words of 32 bits, they hold words after each quiet instruction, and when
/// the hart asks next, whatever numbers the program has for code words.
#[tactic(auto, using(crate::proofs::WordsKept::step_words, crate::proofs::WordsKept::ask_words))]
pub fn registers_stay_words()
    ensures step { (i : Program) (s t : HartState) → AreWords s.x → step i s ≡ Quiet t → AreWords t.x }
    ensures run { (i : Program) (budget : ℕ) (s : HartState) → AreWords s.x → AreWords (ask_of i budget s).state.x }
{}
