//! Hexadecimal digits, eight at once in a word of 64 bits: each row has many, and one at a time would be slow.
ghost use Rattle.std.specs.Prelude.{◌≡◌};
ghost use Rattle.rv_text.specs.Instructions.{hex8};

/// The eight hexadecimal digits of a number in ASCII, the highest first.
///
/// The halves of the number are moved apart, then their bytes, and then the digits of each byte, so that each digit has
/// a byte of its own. A digit from 10 on is a letter: 39 codes stand between `9` and `a` that are no digits.
#[tactic(auto, using(crate::proofs::HexDigits::ascii_of, crate::proofs::HexDigits::digits_of, crate::proofs::HexDigits::bytes_of, crate::proofs::HexDigits::halves_of, crate::proofs::HexDigits::ascii_of_hex8))]
pub fn eight_digits(n: u32) -> [u8; 8]
    ensures { result ≡ hex8 n }
{
    let n = u64::from(n);
    let halves = (n >> 16) * 0x1_0000_0000 + n % 0x1_0000;
    let bytes = halves + (halves >> 8 & 0x0000_00ff_0000_00ff) * 0xff00;
    let digits = bytes + (bytes >> 4 & 0x000f_000f_000f_000f) * 0xf0;
    let letters = (digits + 0x0606_0606_0606_0606) >> 4 & 0x0101_0101_0101_0101;
    (digits + 0x3030_3030_3030_3030 + letters * 39).to_be_bytes()
}
