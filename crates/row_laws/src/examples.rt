//! A small recording, worked out by hand: hart 0 loads a word twice, and in between hart 1's read call fills it.
ghost use Rattle.std.specs.Prelude.{◌≡◌, ◌∷◌, [], drop, map, take, Some, None};
ghost use Rattle.run_model.specs.Examples.{a_filled_word, program_of, rows};
ghost use Rattle.run_model.specs.Runs.{start_state};
ghost use Rattle.row_laws.specs.Examples.{read_row, read_state};
ghost use Rattle.row_laws.specs.Fills.{Fills};
ghost use Rattle.row_laws.specs.States.{state_after};
ghost use Rattle.row_laws.specs.Words.{word_told};

/// The rows before a read call lead to the state before it, and it fills bytes of the word.
#[tactic(auto, using(crate::proofs::Worked::read_is, crate::proofs::Worked::state_is, crate::proofs::Worked::fills_is))]
pub fn a_read_call_fills()
    ensures row { take 1 (drop 6 (rows a_filled_word 1)) ≡ read_row ∷ [] }
    ensures state { state_after (program_of a_filled_word) (start_state a_filled_word.settings (program_of a_filled_word) 1) (take 6 (rows a_filled_word 1)) ≡ read_state }
    ensures fills { Fills read_state read_row 0x20000 }
{}

/// The rows of the other hart tell the word before and after the call.
#[tactic(auto, using(crate::proofs::Worked::told_is))]
pub fn a_filled_word_is_told()
    ensures { map (λ r. word_told r 0x20000) (rows a_filled_word 0) ≡ None ∷ None ∷ Some 0 ∷ Some 0x7a797877 ∷ None ∷ None ∷ [] }
{}
