//! What is refused of a file. `refusal` in `specs/` pins the order of the tests, and so each error.
ghost use Rattle.std.specs.Prelude.{◌≡◌, ◌≤◌, length, IfOk, find};
ghost use Rattle.std.specs.Result.{result_err};
ghost use Rattle.elf_loader.specs.Headers.{file_header, table_end};
ghost use Rattle.elf_loader.specs.Segments.{share};
ghost use Rattle.elf_loader.specs.Loaded.{header_refusal, is_cut_off, is_outside, segment_refusal, touching};

use crate::error::ElfError;
use crate::file_header::{FILE_HEADER_SIZE, FileHeader};
use crate::flags;
use crate::program_header::ProgramHeader;

/// The magic number.
const ELF_MAGIC: [u8; 4] = [0x7f, b'E', b'L', b'F'];

/// An executable at fixed addresses.
const ET_EXEC: u16 = 2;

/// The most program headers that are taken.
const MOST_HEADERS: u16 = 64;

/// Reads the ELF header and tests it: the refusals up to a program header table that is cut off.
#[tactic(auto, unfolding(crate::specs::Loaded::header_refusal))]
pub fn checked_header(bytes: &[u8]) -> Result<FileHeader, ElfError>
    ensures refused { result_err result ≡ header_refusal bytes.now }
    ensures header { IfOk result (λ f. f ≡ file_header bytes.now) }
    ensures table { IfOk result (λ f. table_end f ≤ length bytes.now) }
    ensures few { IfOk result (λ f. f.phnum ≤ 64) }
{
    let length = bytes.len() as u64;
    if !bytes.starts_with(&ELF_MAGIC) {
        return Err(ElfError::NotElf);
    }
    if bytes.len() < FILE_HEADER_SIZE {
        return Err(ElfError::Truncated { at: 52, length });
    }
    let header = FileHeader::read(bytes);
    if !header.is_rv32() {
        return Err(ElfError::NotRv32);
    }
    if header.kind != ET_EXEC {
        return Err(ElfError::NotStatic);
    }
    if flags::needs_compressed(header.flags) {
        return Err(ElfError::NeedsCompressed);
    }
    if flags::needs_e(header.flags) {
        return Err(ElfError::NeedsE);
    }
    if header.phnum > MOST_HEADERS {
        return Err(ElfError::TooMany {
            count: header.phnum as u64,
        });
    }
    let at = header.table_end();
    if length < at {
        return Err(ElfError::Truncated { at, length });
    }
    Ok(header)
}

// The first segment whose bytes aren't all in a file of this length.
fn cut_off(segments: &[ProgramHeader], length: u64) -> Option<ProgramHeader>
    ensures { result ≡ find (is_cut_off length) segments.now }
{
    segments.iter().copied().find(|h| h.is_cut_off(length))
}

// The first segment that isn't within memory.
fn outside(segments: &[ProgramHeader], memory: u32) -> Option<ProgramHeader>
    ensures { result ≡ find (is_outside memory) segments.now }
{
    segments.iter().copied().find(|h| h.is_outside(memory))
}

// The first segment that shares a word with this one.
fn sharing(first: &ProgramHeader, segments: &[ProgramHeader]) -> Option<ProgramHeader>
    ensures { result ≡ find (share first.now) segments.now }
{
    segments
        .iter()
        .copied()
        .find(|other| first.shares_word_with(other))
}

// The first segment that shares a word with a later one, and the first such later one.
fn touching(segments: &[ProgramHeader]) -> Option<(ProgramHeader, ProgramHeader)>
    ensures { result ≡ touching segments.now }
{
    for (i, first) in segments.iter().enumerate() {
        if let Some(second) = sharing(first, &segments[i + 1..]) {
            return Some((*first, second));
        }
    }
    None
}

/// Tests the segments of a file of this length against a size of memory: the refusals from a segment
/// that is cut off to no segment.
pub fn check_segments(segments: &[ProgramHeader], length: u64, memory: u32) -> Result<(), ElfError>
    ensures { result_err result ≡ segment_refusal length memory segments.now }
{
    if let Some(header) = cut_off(segments, length) {
        return Err(ElfError::Truncated {
            at: header.file_end(),
            length,
        });
    }
    if let Some(header) = outside(segments, memory) {
        return Err(ElfError::Outside {
            segment: header.place,
        });
    }
    if let Some((first, second)) = touching(segments) {
        return Err(ElfError::SegmentsTouch {
            first: first.place,
            second: second.place,
        });
    }
    if segments.is_empty() {
        return Err(ElfError::NoSegment);
    }
    Ok(())
}
