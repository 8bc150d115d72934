//! Reading a number at a place.
ghost use Rattle.std.specs.Prelude.{◌≡◌, ◌≤◌, ◌+◌, length};
ghost use Rattle.le_numbers.specs.Numbers.{number_at};

use byteorder::{ByteOrder, LittleEndian};

/// The number in the two bytes at a place, the least significant byte first.
#[tactic(auto, unfolding(crate::specs::Numbers::number_at))]
pub fn read_u16(bytes: &[u8], at: usize) -> u16
    requires { at + 2 ≤ length bytes.now }
    ensures { result ≡ number_at 2 at bytes.now }
{
    LittleEndian::read_u16(&bytes[at..])
}

/// The number in the four bytes at a place, the least significant byte first.
#[tactic(auto, unfolding(crate::specs::Numbers::number_at))]
pub fn read_u32(bytes: &[u8], at: usize) -> u32
    requires { at + 4 ≤ length bytes.now }
    ensures { result ≡ number_at 4 at bytes.now }
{
    LittleEndian::read_u32(&bytes[at..])
}

/// The number in the eight bytes at a place, the least significant byte first.
#[tactic(auto, unfolding(crate::specs::Numbers::number_at))]
pub fn read_u64(bytes: &[u8], at: usize) -> u64
    requires { at + 8 ≤ length bytes.now }
    ensures { result ≡ number_at 8 at bytes.now }
{
    LittleEndian::read_u64(&bytes[at..])
}
