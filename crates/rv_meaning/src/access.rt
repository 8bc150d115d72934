//! What a load gives of a word, and what a store leaves of it, for the machine and for replays.
ghost use Rattle.std.specs.Prelude.{◌≡◌, ◌<◌, ◌==◌, if◌then◌else◌, IsTrue};
ghost use Rattle.rv_meaning.specs.Access.{loaded_value, stored_word};
ghost use Rattle.rv_meaning.specs.Orderly.{is_aligned};

use bn_base::Addr;

/// Whether it is an access of 1, 2 or 4 bytes at a multiple of its width.
pub fn is_aligned(addr: Addr, width: u8) -> bool
    ensures { result ≡ is_aligned addr width }
{
    match width {
        1 => true,
        2 => addr % 2 == 0,
        4 => addr % 4 == 0,
        _ => false,
    }
}

// How many bits of a word an access of this width leaves out: 24 for a byte, 16 for a halfword.
fn bits_outside(width: u8) -> u32
    ensures value { result ≡ (if width == 1 then 24 else (if width == 2 then 16 else 0)) }
    ensures below_word { result < 32 }
{
    match width {
        1 => 24,
        2 => 16,
        _ => 0,
    }
}

/// What a load gives: the byte, halfword or word at the address, `word` being the aligned word
/// that it is in. A byte or halfword is sign-extended or zero-extended to 32 bits.
pub fn loaded_value(addr: Addr, width: u8, signed: bool, word: u32) -> u32
    ensures { result ≡ loaded_value addr width signed word }
{
    // Words apart: most loads are of these.
    if width == 4 && addr % 4 == 0 {
        return word;
    }
    // Shifts serve bytes and halfwords alike: a branch on the width would often be mispredicted.
    let outside = bits_outside(width);
    let top = (word >> (addr % 4 * 8)) << outside;
    if signed {
        (top.cast_signed() >> outside).cast_unsigned()
    } else {
        top >> outside
    }
}

/// The aligned word of an address after a store of 1, 2 or 4 bytes there; `word` is the one before
/// it, `value` the contents of rs2.
#[tactic(auto, using(crate::proofs::MaskedStore::masked_store))]
pub fn stored_word(addr: Addr, width: u8, value: u32, word: u32) -> u32
    requires { IsTrue (is_aligned addr width) }
    ensures { result ≡ stored_word addr width value word }
{
    // Apart, since most stores are of words: so the word before isn't even read.
    if width == 4 {
        return value;
    }
    let mask = u32::MAX >> bits_outside(width);
    let place = addr % 4 * 8;
    (word & !(mask << place)) | ((value & mask) << place)
}
