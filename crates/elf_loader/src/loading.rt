//! `load`: from the bytes of a file to a program, for recorders and replays alike.
ghost use Rattle.std.specs.Prelude.{◌≡◌, ◌≤◌, ◌%◌, ◌^◌, ◌⊎◌, true, length, map, filter, find, All, None, Ok, Err, IfOk, IfErr};
ghost use Rattle.std.specs.List.{list_any};
ghost use Rattle.elf_loader.specs.declared.error.ElfError.TheVariants.{OutOfMemory};
ghost use Rattle.elf_loader.specs.Headers.{file_header, table, table_end};
ghost use Rattle.elf_loader.specs.Segments.{is_segment, IsLoadable, segments, part_of, has_code, is_code, by_address};
ghost use Rattle.elf_loader.specs.Loaded.{is_interpreter, touching, segment_refusal, program_of, refusal, image_of};

use crate::checks::{check_segments, checked_header};
use crate::error::ElfError;
use crate::file_header::FileHeader;
use crate::program_header::{HEADER_SIZE, ProgramHeader};
use arrayvec::ArrayVec;
use bn_base::{Addr, Image, Segment, Settings};
use std::alloc::{AllocError, Global};

// Program headers, at most as many as are taken. They are in no memory of the heap, so that no
// refusal of a file waits for memory.
type Headers = ArrayVec<ProgramHeader, 64>;

#[tactic(auto, unfolding(crate::specs::Headers::table), using(crate::proofs::Words::grown))]
fn read_table(bytes: &[u8], header: FileHeader) -> Headers
    requires own { header ≡ file_header bytes.now }
    requires inside { table_end header ≤ length bytes.now }
    requires few { header.phnum ≤ 64 }
    ensures { result.items ≡ table bytes.now }
{
    let mut headers = ArrayVec::new();
    for place in 0..header.phnum as usize {
        let at = header.phoff as usize + HEADER_SIZE * place;
        headers.push(ProgramHeader::read(bytes, at, place as u64));
    }
    headers
}

fn needs_interpreter(headers: &[ProgramHeader]) -> bool
    ensures { result ≡ list_any is_interpreter headers.now }
{
    headers.iter().any(|h| h.is_interpreter())
}

// The headers that describe segments.
fn segments(headers: &[ProgramHeader]) -> Headers
    requires { length headers.now ≤ 64 }
    ensures { result.items ≡ filter is_segment headers.now }
{
    let mut segments = ArrayVec::new();
    for header in headers {
        if header.is_segment() {
            segments.push(*header);
        }
    }
    segments
}

// The first segment with a code word at an address, which need not be aligned.
fn code_segment(segments: &[ProgramHeader], addr: Addr) -> Option<ProgramHeader>
    ensures { result ≡ find (has_code addr) segments.now }
{
    segments.iter().copied().find(|h| h.has_code(addr))
}

// Whether an address is that of a code word of some segments.
fn is_code(segments: &[ProgramHeader], addr: Addr) -> bool
    ensures { result ≡ is_code segments.now addr }
{
    addr % 4 == 0 && code_segment(segments, addr).is_some()
}

fn by_address(alloc: Global, headers: &[ProgramHeader]) -> Result<Vec<ProgramHeader>, AllocError>
    requires segments { All (λ h. is_segment h ≡ true) headers.now }
    requires apart { touching headers.now ≡ None }
    ensures { IfOk result (λ sorted. sorted.items ≡ by_address headers.now) }
{
    let mut sorted = Vec::from_slice(alloc, headers)?;
    sorted.sort_by_key(|h| h.vaddr)?;
    Ok(sorted)
}

// The segments in whole aligned words, their bytes out of the file.
fn parts(alloc: Global, bytes: &[u8], headers: &[ProgramHeader]) -> Result<Vec<Segment>, AllocError>
    requires { All (IsLoadable (length bytes.now)) headers.now }
    ensures { IfOk result (λ parts. parts.items ≡ map (part_of bytes.now) headers.now) }
{
    let mut parts = Vec::with_capacity(alloc, headers.len())?;
    for header in headers {
        parts.push(header.segment(alloc, bytes)?)?;
    }
    Ok(parts)
}

// The program of the segments that were taken.
#[tactic(auto, unfolding(crate::specs::Loaded::program_of))]
fn program(
    alloc: Global,
    bytes: &[u8],
    headers: &[ProgramHeader],
    entry: Addr,
    settings: &Settings,
) -> Result<Image, AllocError>
    requires own { entry ≡ (file_header bytes.now).entry }
    requires are { headers.now ≡ segments bytes.now }
    requires taken { segment_refusal (length bytes.now) settings.now.memory headers.now ≡ None }
    requires low { 65536 ≤ settings.now.memory }
    requires high { settings.now.memory ≤ 2 ^ 26 }
    requires pages { settings.now.memory % 4096 ≡ 0 }
    ensures { IfOk result (λ i. i ≡ program_of bytes.now settings.now) }
{
    let headers = by_address(alloc, headers)?;
    let parts = parts(alloc, bytes, &headers)?;
    Ok(Image::new(parts, entry, settings))
}

/// Loads the program of an ELF file (ELF, "Program Loading").
///
/// A segment is a program header of type PT_LOAD with a size in memory above 0. Every aligned word
/// that it touches holds its bytes, and 0 for those that the file doesn't give. The word is code with
/// PF_X, and read-only without PF_W. Other types of headers and other flags mean nothing, nor do
/// sections. All other mapped words are 0 and writable. Sums are taken in 64 bits.
///
/// The first of these that applies is the refusal. If it applies to several segments, the first of
/// them in the table is named.
///
/// | refusal | comes if |
/// |---|---|
/// | `NotElf` | the first four bytes aren't 7f 45 4c 46 |
/// | `Truncated` at 52 | the file has fewer than 52 bytes |
/// | `NotRv32` | class, encoding or version isn't 1, or `e_machine` isn't 243, or there are program headers and `e_phentsize` isn't 32 |
/// | `NotStatic` | `e_type` isn't 2 |
/// | `NeedsCompressed`, `NeedsE` | `e_flags` has bit 0, has bit 3 |
/// | `TooMany` | there are more than 64 program headers |
/// | `Truncated` | the program header table passes the end of the file |
/// | `NotStatic` | a program header has type PT_INTERP |
/// | `Truncated` | a segment's bytes pass the end of the file |
/// | `Outside` | a segment begins below 4,096, ends past the memory's size, or has more bytes in the file than in memory |
/// | `SegmentsTouch` | two segments share an aligned word |
/// | `NoSegment` | there is no segment |
/// | `EntryOutside` | `e_entry` isn't a multiple of 4, or isn't in an executable segment |
///
/// `OutOfMemory` comes only in place of a program, since no memory is taken before the last refusal
/// was tested. It takes time linear in the length of the file, and the image holds each segment's
/// bytes once.
#[tactic(auto, unfolding(crate::specs::Loaded::image_of, crate::specs::Loaded::refusal))]
pub fn load(alloc: Global, bytes: &[u8], settings: &Settings) -> Result<Image, ElfError>
    ensures loaded { IfOk result (λ i. image_of bytes.now settings.now ≡ Ok i) }
    ensures refused { IfErr result (λ e. (e ≡ OutOfMemory) ⊎ (image_of bytes.now settings.now ≡ Err e)) }
    ensures memory { IfErr result (λ e. (refusal bytes.now settings.now ≡ None) ⊎ (image_of bytes.now settings.now ≡ Err e)) }
{
    let header = checked_header(bytes)?;
    let table = read_table(bytes, header);
    if needs_interpreter(&table) {
        return Err(ElfError::NotStatic);
    }
    let segments = segments(&table);
    check_segments(&segments, bytes.len() as u64, settings.memory())?;
    if !is_code(&segments, header.entry) {
        return Err(ElfError::EntryOutside {
            entry: header.entry,
        });
    }
    Ok(program(alloc, bytes, &segments, header.entry, settings)?)
}
