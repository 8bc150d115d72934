//! Writing a number at a place, or after other bytes.
ghost use Rattle.std.specs.Prelude.{◌≡◌, ◌≤◌, ◌<◌, ◌+◌, ◌++◌, length, take, drop, vec_len, vec_capacity, OnOk, OnErr};
ghost use Rattle.le_numbers.specs.Numbers.{number_bytes};

use byteorder::{ByteOrder, LittleEndian};
use std::alloc::AllocError;

/// Writes a number into the four bytes at a place, the least significant byte first.
#[tactic(auto, unfolding(crate::specs::Numbers::number_bytes))]
pub fn write_u32(bytes: &mut [u8], at: usize, number: u32)
    requires { at + 4 ≤ length bytes.old }
    ensures { bytes.new ≡ take at bytes.old ++ number_bytes 4 number ++ drop (at + 4) bytes.old }
{
    LittleEndian::write_u32(&mut bytes[at..], number);
}

/// Writes a number into the eight bytes at a place, the least significant byte first.
#[tactic(auto, unfolding(crate::specs::Numbers::number_bytes))]
pub fn write_u64(bytes: &mut [u8], at: usize, number: u64)
    requires { at + 8 ≤ length bytes.old }
    ensures { bytes.new ≡ take at bytes.old ++ number_bytes 8 number ++ drop (at + 8) bytes.old }
{
    LittleEndian::write_u64(&mut bytes[at..], number);
}

/// Appends a number's four bytes, the least significant byte first. It needs no memory if there is
/// room for them.
#[tactic(auto, unfolding(crate::specs::Numbers::number_bytes))]
pub fn push_u32(out: &mut Vec<u8>, number: u32) -> Result<(), AllocError>
    ensures ok { OnOk result (out.new.items ≡ out.old.items ++ number_bytes 4 number) }
    ensures err { OnErr result (out.new.items ≡ out.old.items) }
    ensures full { OnErr result (vec_capacity out.old < vec_len out.old + 4) }
{
    let mut bytes = [0; 4];
    LittleEndian::write_u32(&mut bytes, number);
    out.extend_from_slice(&bytes)
}

/// Appends a number's eight bytes, the least significant byte first. It needs no memory if there is
/// room for them.
#[tactic(auto, unfolding(crate::specs::Numbers::number_bytes))]
pub fn push_u64(out: &mut Vec<u8>, number: u64) -> Result<(), AllocError>
    ensures ok { OnOk result (out.new.items ≡ out.old.items ++ number_bytes 8 number) }
    ensures err { OnErr result (out.new.items ≡ out.old.items) }
    ensures full { OnErr result (vec_capacity out.old < vec_len out.old + 8) }
{
    let mut bytes = [0; 8];
    LittleEndian::write_u64(&mut bytes, number);
    out.extend_from_slice(&bytes)
}
