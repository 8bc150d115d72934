//! What holds of the table itself. These functions do nothing: their contracts are theorems.
ghost use Rattle.std.specs.Prelude.{◌≡◌, ◌↔◌, ℕ, Some, None, All, AllPairs, IsTrue, IsFalse};
ghost use Rattle.rv_decode.specs.Table.{table, fits, spelled, decoded, NoWordFitsBoth};

/// No two rows of the table fit one word: of each row and each later one, no word fits both.
#[tactic(auto, using(crate::proofs::Apart::table_pairs))]
pub fn no_two_rows_fit_one_word()
    ensures { AllPairs NoWordFitsBoth table }
{}

/// A word decodes to the row that it fits, whichever that is, and to nothing if and only if it fits
/// none.
#[tactic(auto, using(crate::proofs::Decoded::fitting_row, crate::proofs::Decoded::no_row))]
pub fn each_word_decodes_by_its_row()
    ensures row { (w : ℕ) →
        All (λ r. IsTrue (fits r w) → decoded w ≡ Some (spelled r.name r.format w)) table }
    ensures none { (w : ℕ) → ((decoded w ≡ None) ↔ All (λ r. IsFalse (fits r w)) table) }
{}
