//! Program headers, and the aligned words of the segments that they describe.
ghost use Rattle.std.specs.Prelude.{◌≡◌, ◌≤◌, ◌<◌, ◌+◌, ◌^◌, length, vec_len, IfOk};
ghost use Rattle.elf_loader.specs.Headers.{header_at};
ghost use Rattle.elf_loader.specs.Segments.{is_segment, file_end, IsLoadable, words_touched, first_word, word_after, has_code, share, byte_in, word_of, file_words, part_of};
ghost use Rattle.elf_loader.specs.Loaded.{is_interpreter, is_cut_off, is_outside};

use crate::flags;
use bn_base::{Addr, Segment};
use le_numbers::read_u32;
use std::alloc::{AllocError, Global};

/// The size of a program header in the file.
pub const HEADER_SIZE: usize = 32;

const PT_LOAD: u32 = 1;

const PT_INTERP: u32 = 3;

/// The lowest mapped address.
const LOWEST: u32 = 4096;

/// A program header (ELF, "Program Header"): the fields that loading needs.
#[derive(Clone, Copy, Default, Drop)]
pub struct ProgramHeader {
    /// Its place in the table, counted from 0.
    pub place: u64,
    /// What it describes.
    pub kind: u32,
    /// The offset of the segment in the file.
    pub offset: u32,
    /// The address of the segment in memory.
    pub vaddr: Addr,
    /// How many bytes the file has of it.
    pub filesz: u32,
    /// How many bytes it has in memory.
    pub memsz: u32,
    /// Its permissions.
    pub flags: u32,
}

// How many aligned words have one of the `size` bytes from an address on.
fn words_touched(addr: Addr, size: u32) -> u32
    ensures value { result ≡ words_touched addr size }
    ensures small { result ≤ 2 ^ 30 + 1 }
{
    if size == 0 {
        return 0;
    }
    ((addr as u64 % 4 + size as u64 + 3) / 4) as u32
}

impl ProgramHeader {
    /// Reads the program header that begins at a byte of the file.
    pub fn read(bytes: &[u8], at: usize, place: u64) -> ProgramHeader
        requires { at + 32 ≤ length bytes.now }
        ensures { result ≡ header_at bytes.now at place }
    {
        ProgramHeader {
            place,
            kind: read_u32(bytes, at),
            offset: read_u32(bytes, at + 4),
            vaddr: read_u32(bytes, at + 8),
            filesz: read_u32(bytes, at + 16),
            memsz: read_u32(bytes, at + 20),
            flags: read_u32(bytes, at + 24),
        }
    }

    /// Whether it describes a segment: one to be loaded, with a size in memory above 0.
    pub fn is_segment(&self) -> bool
        ensures { result ≡ is_segment self.now }
    {
        self.kind == PT_LOAD && self.memsz > 0
    }

    /// Whether it asks for a program interpreter.
    pub fn is_interpreter(&self) -> bool
        ensures { result ≡ is_interpreter self.now }
    {
        self.kind == PT_INTERP
    }

    /// The offset after the segment in the file.
    pub fn file_end(&self) -> u64
        ensures { result ≡ file_end self.now }
    {
        self.offset as u64 + self.filesz as u64
    }

    /// Whether its bytes aren't all in a file of this length.
    pub fn is_cut_off(&self, length: u64) -> bool
        ensures { result ≡ is_cut_off length self.now }
    {
        length < self.file_end()
    }

    /// Whether it isn't within the mapped addresses, or has more bytes in the file than in memory.
    pub fn is_outside(&self, memory: u32) -> bool
        ensures { result ≡ is_outside memory self.now }
    {
        self.vaddr < LOWEST
            || (memory as u64) < self.vaddr as u64 + self.memsz as u64
            || self.memsz < self.filesz
    }

    // The number of the first aligned word that it touches, counted from address 0.
    fn first_word(&self) -> u32
        ensures { result ≡ first_word self.now }
    {
        self.vaddr / 4
    }

    // The number of the first aligned word after those that it touches.
    fn word_after(&self) -> u32
        ensures { result ≡ word_after self.now }
    {
        self.first_word() + words_touched(self.vaddr, self.memsz)
    }

    /// Whether two segments share an aligned word.
    pub fn shares_word_with(&self, other: &ProgramHeader) -> bool
        ensures { result ≡ share self.now other.now }
    {
        self.first_word() < other.word_after() && other.first_word() < self.word_after()
    }

    /// Whether its words are code, and an address is in one of them.
    pub fn has_code(&self, addr: Addr) -> bool
        ensures { result ≡ has_code addr self.now }
    {
        let word = addr / 4;
        flags::is_executable(self.flags) && self.first_word() <= word && word < self.word_after()
    }

    // The byte at an address: one of the file's, or 0.
    fn byte(&self, bytes: &[u8], addr: u64) -> u8
        requires { file_end self.now ≤ length bytes.now }
        ensures { result ≡ byte_in bytes.now self.now addr }
    {
        let start = self.vaddr as u64;
        if start <= addr && addr < start + self.filesz as u64 {
            bytes[(self.offset as u64 + (addr - start)) as usize]
        } else {
            0
        }
    }

    // The word of the four bytes from an address on.
    fn word(&self, bytes: &[u8], addr: u64) -> u32
        requires inside { file_end self.now ≤ length bytes.now }
        requires small { addr < 2 ^ 33 }
        ensures { result ≡ word_of bytes.now self.now addr }
    {
        let start = self.vaddr as u64;
        if start <= addr && addr + 4 <= start + self.filesz as u64 {
            read_u32(bytes, (self.offset as u64 + (addr - start)) as usize)
        } else {
            let four = [
                self.byte(bytes, addr),
                self.byte(bytes, addr + 1),
                self.byte(bytes, addr + 2),
                self.byte(bytes, addr + 3),
            ];
            read_u32(&four, 0)
        }
    }

    // The words that have a byte of the file.
    fn file_words(&self, alloc: Global, bytes: &[u8]) -> Result<Vec<u32>, AllocError>
        requires { file_end self.now ≤ length bytes.now }
        ensures words { IfOk result (λ words. words.items ≡ file_words bytes.now self.now) }
        ensures len { IfOk result (λ words. vec_len words ≡ words_touched self.now.vaddr self.now.filesz) }
    {
        let first = self.first_word() as u64;
        let count = words_touched(self.vaddr, self.filesz);
        let mut words = Vec::with_capacity(alloc, count as usize)?;
        for k in 0..count {
            words.push(self.word(bytes, 4 * (first + k as u64)))?;
        }
        Ok(words)
    }

    /// The segment in whole aligned words, its bytes out of the file.
    #[tactic(auto, using(crate::proofs::Words::words_touched_more))]
    pub fn segment(&self, alloc: Global, bytes: &[u8]) -> Result<Segment, AllocError>
        requires { IsLoadable (length bytes.now) self.now }
        ensures { IfOk result (λ s. s ≡ part_of bytes.now self.now) }
    {
        let words = self.file_words(alloc, bytes)?;
        Ok(Segment::new(
            4 * self.first_word(),
            words,
            words_touched(self.vaddr, self.memsz),
            flags::is_executable(self.flags),
            flags::is_writable(self.flags),
        ))
    }
}
