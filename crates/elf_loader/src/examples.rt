//! Heads of files that are refused, each with the first reason.
#![tactic(auto, unfolding(le_numbers::specs::Numbers::number_bytes, le_numbers::specs::Numbers::number_at, crate::specs::Loaded::header_refusal, crate::specs::Headers::table, crate::specs::Segments::segments, crate::specs::Loaded::segment_refusal, crate::specs::Loaded::program_of, crate::specs::Segments::file_words, crate::specs::Loaded::refusal))]

ghost use Rattle.std.specs.Prelude.{◌≡◌, ◌∷◌, ◌++◌, [], Some};
ghost use Rattle.bn_base.specs.Ranges.{default_settings};
ghost use Rattle.elf_loader.specs.declared.error.ElfError.TheVariants.{NotElf, Truncated, NotRv32, NotStatic, NeedsCompressed, NeedsE, TooMany, Outside, SegmentsTouch, NoSegment, EntryOutside};
ghost use Rattle.elf_loader.specs.Loaded.{refusal};
ghost use Rattle.elf_loader.specs.Examples.{head, segment};

/// Files that begin otherwise, that end before the header does, or that are for another processor.
pub fn other_files_are_refused()
    ensures not_elf { refusal [] default_settings ≡ Some NotElf }
    ensures truncated { refusal (0x7f ∷ 0x45 ∷ 0x4c ∷ 0x46 ∷ []) default_settings ≡ Some (Truncated 52 4) }
    ensures machine { refusal (head 2 62 0 0) default_settings ≡ Some NotRv32 }
{}

/// A program that is linked at run time, or that asks for compressed instructions or for 16 registers alone.
pub fn other_programs_are_refused()
    ensures shared { refusal (head 3 243 0 0) default_settings ≡ Some NotStatic }
    ensures compressed { refusal (head 2 243 1 0) default_settings ≡ Some NeedsCompressed }
    ensures embedded { refusal (head 2 243 8 0) default_settings ≡ Some NeedsE }
{}

/// More than 64 program headers, or fewer bytes than theirs.
pub fn a_bad_table_is_refused()
    ensures many { refusal (head 2 243 0 65) default_settings ≡ Some (TooMany 65) }
    ensures table { refusal (head 2 243 0 1) default_settings ≡ Some (Truncated 84 52) }
{}

/// No segment, one that begins below the mapped addresses, two that share a word, and an entry outside of them.
pub fn bad_segments_are_refused()
    ensures none { refusal (head 2 243 0 0) default_settings ≡ Some NoSegment }
    ensures low { refusal (head 2 243 0 1 ++ segment 4092 8) default_settings ≡ Some (Outside 0) }
    ensures touch { refusal (head 2 243 0 2 ++ (segment 65536 9 ++ segment 65544 4)) default_settings ≡ Some (SegmentsTouch 0 1) }
    ensures entry { refusal (head 2 243 0 1 ++ segment 65536 4) default_settings ≡ Some (EntryOutside 65620) }
{}
