//! What the definitions mean, address by address: these laws are what the rest of the project takes of a loaded file.
ghost use Rattle.elf_loader.specs.Laws.{SegmentsTouchTheirWords, SegmentsShareWords, MemoryHoldsSegments, MemoryHoldsNothingElse, HeapIsAfterSegments, LoadedProgramsAreImages};

use le_numbers::laws::read_numbers_are_written;

/// A segment touches exactly the aligned words that have one of its bytes.
pub fn segments_touch_the_words_of_their_bytes()
    ensures { SegmentsTouchTheirWords }
{}

/// Two segments share a word if and only if there is one that both touch.
pub fn segments_share_words_that_both_touch()
    ensures { SegmentsShareWords }
{}

/// Each segment of a file that is loaded is in memory at the address that its header says.
pub fn memory_holds_each_segment()
    ensures { MemoryHoldsSegments }
{}

/// And nothing else does.
pub fn memory_holds_nothing_else()
    ensures { MemoryHoldsNothingElse }
{}

/// The heap begins at the first page after the highest segment.
#[tactic(auto, using(crate::proofs::Memory::heap_after))]
pub fn heap_begins_after_the_highest_segment()
    ensures { HeapIsAfterSegments }
{}

/// For settings in range, the program of a file's bytes is one as its type has it: its segments are
/// whole aligned words, which lie apart in the mapped addresses. Its words have 32 bits, and its
/// entry is the address of a code word.
pub fn loaded_programs_are_images()
    ensures { LoadedProgramsAreImages }
{
    read_numbers_are_written();
}
