//! The files of generated programs, which tests and `demo` record. `specs/File.antt` pins each byte.
ghost use Rattle.std.specs.Prelude.{◌≡◌, ◌++◌, IfOk, OnOk, length, map};
ghost use Rattle.le_numbers.specs.Numbers.{number_bytes};
ghost use Rattle.rv_decode.specs.Encode.{encoded};
ghost use Rattle.rv_decode.specs.Seen.{seen};
ghost use Rattle.guest_gen.specs.Code.{draws, slot, opening, IsCode};
ghost use Rattle.guest_gen.specs.File.{headers, code_bytes, guest_bytes};

use crate::kind::Kind;
use crate::slots::{A0, S0, S1, closing, next, of_registers, slot, with_immediate};
use le_numbers::push_u32;
use rv_decode::{Instr, Name, encode};
use std::alloc::{AllocError, Global};

// The ELF header, and the program headers of the code and of the data.
const HEADERS: [u8; 116] = [
    0x7f, 0x45, 0x4c, 0x46, 0x01, 0x01, 0x01, 0x00, 0x00, 0x00, 0x00, 0x00, 0x00, 0x00, 0x00, 0x00,
    0x02, 0x00, 0xf3, 0x00, 0x01, 0x00, 0x00, 0x00, 0x00, 0x00, 0x01, 0x00, 0x34, 0x00, 0x00, 0x00,
    0x00, 0x00, 0x00, 0x00, 0x00, 0x00, 0x00, 0x00, 0x34, 0x00, 0x20, 0x00, 0x02, 0x00, 0x00, 0x00,
    0x00, 0x00, 0x00, 0x00, 0x01, 0x00, 0x00, 0x00, 0x74, 0x00, 0x00, 0x00, 0x00, 0x00, 0x01, 0x00,
    0x00, 0x00, 0x01, 0x00, 0x10, 0x04, 0x00, 0x00, 0x10, 0x04, 0x00, 0x00, 0x05, 0x00, 0x00, 0x00,
    0x04, 0x00, 0x00, 0x00, 0x01, 0x00, 0x00, 0x00, 0x84, 0x04, 0x00, 0x00, 0x00, 0x00, 0x02, 0x00,
    0x00, 0x00, 0x02, 0x00, 0x00, 0x00, 0x00, 0x00, 0x00, 0x10, 0x00, 0x00, 0x06, 0x00, 0x00, 0x00,
    0x04, 0x00, 0x00, 0x00,
];

// How many instructions are drawn.
const SLOTS: usize = 256;

// The headers alone.
fn begun(alloc: Global) -> Result<Vec<u8>, AllocError>
    ensures { IfOk result (λ bytes. bytes.items ≡ headers) }
{
    Vec::from_slice(alloc, &HEADERS)
}

// Appends an instruction's word.
fn push(out: &mut Vec<u8>, instr: &Instr) -> Result<(), AllocError>
    requires { IsCode (seen instr.now) }
    ensures { OnOk result (out.new.items ≡ out.old.items ++ number_bytes 4 (encoded (seen instr.now))) }
{
    push_u32(out, encode(instr))
}

// Appends the words before the drawn ones.
fn push_opening(out: &mut Vec<u8>) -> Result<(), AllocError>
    ensures { OnOk result (out.new.items ≡ out.old.items ++ code_bytes opening) }
{
    push(out, &with_immediate(Name::Lui, S0, 0, 0x0002_0000))?;
    push(out, &with_immediate(Name::Slli, S1, A0, 8))?;
    push(out, &of_registers(Name::Add, S1, S1, S0))?;
    Ok(())
}

// Appends the words that a number draws.
fn push_slots(out: &mut Vec<u8>, seed: u64) -> Result<(), AllocError>
    ensures { OnOk result (out.new.items ≡ out.old.items ++ code_bytes (map slot (draws 256 seed))) }
{
    let mut state = seed;
    for _ in 0..SLOTS {
        let drawn = next(state);
        push(out, &slot(drawn >> 33))?;
        state = drawn;
    }
    Ok(())
}

/// The program file that a number gives: an executable for RV32IMA of 1,156 bytes (ELF, "ELF Header"
/// and "Program Header"). It has a segment of 260 code words at 0x10000, which is its entry, and a
/// page of zeroes at 0x20000 for data. It takes the number of the hart that runs it from a0.
pub fn guest(alloc: Global, seed: u64, kind: Kind) -> Result<Vec<u8>, AllocError>
    ensures { IfOk result (λ bytes. bytes.items ≡ guest_bytes seed kind) }
{
    let mut bytes = begun(alloc)?;
    push_opening(&mut bytes)?;
    push_slots(&mut bytes, seed)?;
    push(&mut bytes, &closing(kind))?;
    Ok(bytes)
}
