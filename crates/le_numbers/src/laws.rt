//! Laws by which readers and writers of formats prove that what is written is read back.
ghost use Rattle.std.specs.Prelude.{◌≡◌, ◌<◌, ◌^◌, ◌++◌, ℕ, List, [], ◌∷◌, length};
ghost use Rattle.le_numbers.specs.Numbers.{number_at, number_bytes};
ghost use Rattle.le_numbers.specs.Laws.{HaveTheirWidth, AreRead, AreWritten, Fit};

/// A number has as many bytes as its width says. A format's proofs have the lengths of fields by it.
pub fn numbers_have_their_width()
    ensures { HaveTheirWidth }
{}

/// A number that is written is read back, whatever comes before and after it. If its bytes are at a
/// place, what follows comes right after them: by this law fields are read one after another.
pub fn written_numbers_are_read()
    ensures front { (width n : ℕ) (front rest : List ℕ) → n < 256 ^ width → number_at width (length front) (front ++ number_bytes width n ++ rest) ≡ n }
    ensures place { AreRead }
{}

/// Bytes that are read are the bytes of the number that they give, and the number fits its width.
/// It says what fields were written if only their bytes are known.
pub fn read_numbers_are_written()
    ensures bytes { AreWritten }
    ensures fit { Fit }
{}

/// The definition on three bytes: 2 * 256 + 1 comes after the first.
#[tactic(auto, unfolding(crate::specs::Numbers::number_at))]
pub fn least_significant_byte_first()
    ensures { number_at 2 1 (9 ∷ 1 ∷ 2 ∷ []) ≡ 513 }
{}
