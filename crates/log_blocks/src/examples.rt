//! Blocks that are full, and blocks that are bad.
ghost use Rattle.std.specs.Prelude.{◌≡◌, ◌<◌, ◌∷◌, ◌++◌, [], ℕ, List, length, true, false, Some, None};
ghost use Rattle.log_blocks.specs.Common.{ScOk, total, cut_from, blocks_of, OutOfMemory};
ghost use Rattle.log_blocks.specs.declared.damage.Damage.TheVariants.{File, BadBlock};
ghost use Rattle.log_blocks.specs.declared.damage.SalvageError.TheVariants.{NothingLeft};
ghost use Rattle.log_blocks.specs.declared.damage.SalvageError.TheVariants as salvage;
ghost use Rattle.log_blocks.specs.Fields.{size_in, blocks_in};
ghost use Rattle.log_blocks.specs.Faults.{head_fault};
ghost use Rattle.log_blocks.specs.Pieces.{is_sized};
ghost use Rattle.log_blocks.specs.Cuts.{first_wrong};
ghost use Rattle.log_blocks.specs.File.{IsSecondRefusal, IsSalvageRefusal};
ghost use Rattle.log_blocks.specs.Examples.{full_block, two_blocks};

/// Records of 4,096 bytes are one block, and a record more begins the next one.
#[tactic(auto, using(crate::proofs::Worked::full_size_is, crate::proofs::Worked::one_block_is, crate::proofs::Worked::more_is))]
pub fn a_block_is_full_at_4096_bytes()
    ensures size { total full_block ≡ 4096 }
    ensures one { cut_from [] 0 full_block ≡ full_block ∷ [] }
    ensures more { cut_from [] 0 (full_block ++ ScOk 0 ∷ []) ≡ full_block ∷ (ScOk 0 ∷ []) ∷ [] }
{}

/// A block has 1 to 4,096 bytes of records, and its number of bytes after it is the right one.
pub fn a_block_has_its_size()
    ensures full { is_sized 4096 0 0 4096 4144 ≡ true }
    ensures over { is_sized 4097 0 0 4097 4145 ≡ false }
    ensures empty { is_sized 0 0 0 4096 48 ≡ false }
    ensures left { is_sized 2 4 2 4096 50 ≡ false }
{}

/// Blocks that could be one are cut otherwise than the records are.
#[tactic(auto, using(crate::proofs::Worked::two_blocks_are))]
pub fn records_are_cut_in_one_way()
    ensures { first_wrong 136 (blocks_of 0 (ScOk 0 ∷ ScOk 0 ∷ [])) two_blocks ≡ Some 186 }
{}

/// If a good head is followed by fewer bytes than a seal has, the block that ends there is bad. If there should be records,
/// nothing is left to salvage. Neither is told as out of memory.
#[tactic(auto, using(crate::proofs::Worked::cut_off_is, crate::proofs::Worked::cut_off_told, crate::proofs::Worked::none_left_is, crate::proofs::Worked::none_left_told))]
pub fn a_block_that_is_cut_off_is_bad()
    ensures read { (bytes : List ℕ) → head_fault bytes ≡ None → length (blocks_in bytes) ≡ 47 → IsSecondRefusal bytes (BadBlock 183) }
    ensures told { (bytes : List ℕ) → head_fault bytes ≡ None → length (blocks_in bytes) ≡ 47 → IsSecondRefusal bytes (File OutOfMemory) → ⊥ }
    ensures salvaged { (bytes : List ℕ) → head_fault bytes ≡ None → length (blocks_in bytes) ≡ 47 → 0 < size_in bytes → IsSalvageRefusal bytes NothingLeft }
    ensures unsalvaged { (bytes : List ℕ) → length (blocks_in bytes) ≡ 47 → 0 < size_in bytes → IsSalvageRefusal bytes salvage.OutOfMemory → ⊥ }
{}
