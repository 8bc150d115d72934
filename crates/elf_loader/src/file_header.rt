//! The ELF header: the fields that the loader reads, at the places that ELF gives them.
ghost use Rattle.std.specs.Prelude.{◌≡◌, ◌≤◌, length};
ghost use Rattle.elf_loader.specs.Headers.{file_header, table_end};
ghost use Rattle.elf_loader.specs.Loaded.{is_rv32};

use crate::program_header::HEADER_SIZE;
use bn_base::Addr;
use le_numbers::{read_u16, read_u32};

/// The size of the ELF header in the file.
pub const FILE_HEADER_SIZE: usize = 52;

/// 32-bit objects.
const ELFCLASS32: u8 = 1;

/// Little-endian data.
const ELFDATA2LSB: u8 = 1;

/// The version of the format.
const EV_CURRENT: u8 = 1;

/// The instruction set RISC-V.
const EM_RISCV: u16 = 243;

/// The ELF header (ELF, "ELF Header"): the fields that loading needs.
#[derive(Clone, Copy, Drop)]
pub struct FileHeader {
    /// The class of the file, 32-bit or other.
    pub class: u8,
    /// How its numbers are encoded.
    pub encoding: u8,
    /// The version of the identification.
    pub ident_version: u8,
    /// What kind of file it is.
    pub kind: u16,
    /// The instruction set.
    pub machine: u16,
    /// The version of the file.
    pub version: u32,
    /// The address at which the program starts.
    pub entry: Addr,
    /// The offset of the program header table in the file.
    pub phoff: u32,
    /// What the program asks of the processor.
    pub flags: u32,
    /// The size of a program header.
    pub phentsize: u16,
    /// The number of program headers.
    pub phnum: u16,
}

impl FileHeader {
    /// Reads the header at the beginning of a file.
    pub fn read(bytes: &[u8]) -> FileHeader
        requires { 52 ≤ length bytes.now }
        ensures { result ≡ file_header bytes.now }
    {
        FileHeader {
            class: bytes[4],
            encoding: bytes[5],
            ident_version: bytes[6],
            kind: read_u16(bytes, 16),
            machine: read_u16(bytes, 18),
            version: read_u32(bytes, 20),
            entry: read_u32(bytes, 24),
            phoff: read_u32(bytes, 28),
            flags: read_u32(bytes, 36),
            phentsize: read_u16(bytes, 42),
            phnum: read_u16(bytes, 44),
        }
    }

    /// Whether the file is 32-bit, little-endian and for RISC-V, with program headers of the
    /// standard's size.
    pub fn is_rv32(&self) -> bool
        ensures { result ≡ is_rv32 self.now }
    {
        self.class == ELFCLASS32
            && self.encoding == ELFDATA2LSB
            && self.ident_version == EV_CURRENT
            && self.machine == EM_RISCV
            && self.version == EV_CURRENT as u32
            && (self.phnum == 0 || self.phentsize as usize == HEADER_SIZE)
    }

    /// The offset after the program header table in the file.
    pub fn table_end(&self) -> u64
        ensures { result ≡ table_end self.now }
    {
        self.phoff as u64 + HEADER_SIZE as u64 * self.phnum as u64
    }
}
