//! What holds of every generated program, and words that were worked out by hand.
ghost use Rattle.std.specs.Prelude.{◌≡◌, ℕ, List, [], ◌∷◌, length, map};
ghost use Rattle.std.specs.List.{AllByRecursion};
ghost use Rattle.rv_decode.specs.Encode.{encoded};
ghost use Rattle.guest_gen.specs.declared.kind.Kind.{Kind};
ghost use Rattle.guest_gen.specs.declared.kind.Kind.TheVariants.{Loop, Crash};
ghost use Rattle.guest_gen.specs.Code.{next, draws, slot, opening, closing, code, IsCode};
ghost use Rattle.guest_gen.specs.File.{guest_bytes};

/// Each instruction of a generated program is what its word decodes to, whatever the number.
#[tactic(auto, using(crate::proofs::Table::all_code_words))]
pub fn instructions_decode_to_themselves()
    ensures { (seed : ℕ) (kind : Kind) → AllByRecursion IsCode (code seed kind) }
{}

/// A generated program's file has 1,156 bytes, whatever the number.
#[tactic(auto, using(crate::proofs::Bytes::count_file))]
pub fn files_have_one_size()
    ensures { (seed : ℕ) (kind : Kind) → length (guest_bytes seed kind) ≡ 1156 }
{}

/// The draws of seed 0: the first state is the number that is added, of which the highest 31 bits are
/// drawn.
#[tactic(auto, unfolding(crate::specs::Code::draws))]
pub fn first_draws()
    ensures state { next 0 ≡ 1442695040888963407 }
    ensures drawn { draws 1 0 ≡ 167951807 ∷ [] }
{}

/// The words before and after the slots, and one of each choice with its number 5.
#[tactic(auto, unfolding(crate::specs::Code::opening))]
pub fn words_worked_out()
    ensures opening { map encoded opening ≡ 0x00020437 ∷ 0x00851493 ∷ 0x008484b3 ∷ [] }
    ensures loops { encoded (closing Loop) ≡ 0xc01ff06f }
    ensures crash { encoded (closing Crash) ≡ 0x00002303 }
    ensures slots { map (λ r. encoded (slot r)) (40 ∷ 41 ∷ 42 ∷ 43 ∷ 44 ∷ 45 ∷ 46 ∷ 47 ∷ []) ≡
        0x00530313 ∷ 0x0063c3b3 ∷ 0x01442303 ∷ 0x00642a23 ∷ 0x00740a23 ∷ 0x0074232f ∷ 0x027303b3 ∷ 0x1144a383 ∷ [] }
{}
