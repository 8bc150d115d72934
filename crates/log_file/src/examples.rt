//! Bytes that are no log file, each with the first thing that is wrong with them.
ghost use Rattle.std.specs.Prelude.{◌≡◌, ◌∷◌, ◌++◌, [], false, replicate, List, ℕ, Some};
ghost use Rattle.log_file.specs.Common.{bytes_eq, sha256};
ghost use Rattle.log_file.specs.declared.error.FileError.TheVariants.{Short, BadMagic, BadVersion, BadHead, LengthDiffers, DigestDiffers};
ghost use Rattle.log_file.specs.Faults.{head_fault, file_fault};
ghost use Rattle.log_file.specs.File.{NoRecord};
ghost use Rattle.log_file.specs.Examples.{no_digest, signed, signed_as};

/// A file has a head of 92 bytes and a digest of 32 at least, and begins with the magic bytes.
#[tactic(auto, using(crate::proofs::Worked::short_is, crate::proofs::Worked::magic_is))]
pub fn other_bytes_are_no_file()
    ensures short { file_fault (replicate 123 0) ≡ Some (Short 123) }
    ensures magic { file_fault (replicate 124 0) ≡ Some BadMagic }
{}

/// Its head names version 1 and settings in their ranges; a setting out of its range comes before a wrong length.
#[tactic(auto, unfolding(crate::specs::Layout::magic, crate::specs::Layout::settings_bytes, crate::specs::Layout::signed_bytes, le_numbers::specs::Numbers::number_bytes, le_numbers::specs::Numbers::number_at, crate::specs::Faults::head_fault))]
pub fn a_head_is_refused()
    ensures version { head_fault (signed_as 3) no_digest ≡ Some (BadVersion 3) }
    ensures setting { head_fault (signed 9 ++ 7 ∷ []) no_digest ≡ Some (BadHead 1 9) }
{}

/// A byte too many is refused, and so is a digest that isn't that of the bytes before it.
#[tactic(auto, using(crate::proofs::Worked::length_is, crate::proofs::Worked::digest_is))]
pub fn other_bytes_than_those_signed_are_refused()
    ensures length { head_fault (signed 1 ++ 7 ∷ []) no_digest ≡ Some (LengthDiffers 0 1) }
    ensures digest { (kept : List ℕ) → bytes_eq kept (sha256 (signed 1)) ≡ false → head_fault (signed 1) kept ≡ Some (DigestDiffers kept (sha256 (signed 1))) }
{}

/// No record begins with the byte 7, nor with the first half of one.
#[tactic(auto, using(crate::proofs::Worked::no_tag_is, crate::proofs::Worked::half_is))]
pub fn no_record_begins_there()
    ensures tag { NoRecord 1 (3 ∷ 0 ∷ 7 ∷ 0 ∷ []) 2 }
    ensures half { NoRecord 1 (3 ∷ []) 0 }
{}
