//! Arithmetic on words, as the instructions do it. The sections are those of the RISC-V
//! unprivileged specification, version 20191213.
ghost use Rattle.std.specs.Prelude.{◌≡◌, ◌<◌, ◌^◌, ◌*ℤ◌};
ghost use Rattle.rv_meaning.specs.Words.{flag, less, sub, shift_left, shift_right, shift_right_signed, high_signed, high_mixed, high_unsigned, div_signed, div_unsigned, rem_signed, rem_unsigned};

/// 1 for true, 0 for false.
pub fn flag(condition: bool) -> u32
    ensures { result ≡ flag condition }
{
    if condition { 1 } else { 0 }
}

/// Whether `a` is less than `b`, both read as signed numbers.
pub fn less(a: u32, b: u32) -> bool
    ensures { result ≡ less a b }
{
    a.cast_signed() < b.cast_signed()
}

/// The difference modulo 2^32.
pub fn sub(a: u32, b: u32) -> u32
    ensures { result ≡ sub a b }
{
    a.wrapping_sub(b)
}

/// Shifts left by the lower 5 bits of the amount (section 2.4.2, as the two below).
pub fn shift_left(a: u32, amount: u32) -> u32
    ensures { result ≡ shift_left a amount }
{
    a << (amount % 32)
}

/// Shifts right by the lower 5 bits of the amount, with zeros coming in.
pub fn shift_right(a: u32, amount: u32) -> u32
    ensures { result ≡ shift_right a amount }
{
    a >> (amount % 32)
}

/// Shifts right by the lower 5 bits of the amount, with copies of the sign bit coming in.
pub fn shift_right_signed(a: u32, amount: u32) -> u32
    ensures { result ≡ shift_right_signed a amount }
{
    (a.cast_signed() >> (amount % 32)).cast_unsigned()
}

// The whole product of two signed numbers.
fn product(x: i32, y: i32) -> i64
    ensures { result ≡ x *ℤ y }
{
    x as i64 * y as i64
}

/// The upper 32 bits of the product, signed by signed (section 7.1, as the two below).
pub fn high_signed(a: u32, b: u32) -> u32
    ensures { result ≡ high_signed a b }
{
    (product(a.cast_signed(), b.cast_signed()).cast_unsigned() >> 32) as u32
}

/// The upper 32 bits of the product, signed by unsigned.
pub fn high_mixed(a: u32, b: u32) -> u32
    ensures { result ≡ high_mixed a b }
{
    let product = a.cast_signed() as i64 * b as i64;
    (product.cast_unsigned() >> 32) as u32
}

/// The upper 32 bits of the product, unsigned by unsigned.
pub fn high_unsigned(a: u32, b: u32) -> u32
    ensures { result ≡ high_unsigned a b }
{
    (a as u64 * b as u64 >> 32) as u32
}

/// The quotient of signed numbers, rounded towards zero; all bits set for a zero divisor
/// (section 7.2, as the three below).
pub fn div_signed(a: u32, b: u32) -> u32
    ensures { result ≡ div_signed a b }
{
    if b == 0 {
        u32::MAX
    } else {
        a.cast_signed()
            .wrapping_div(b.cast_signed())
            .cast_unsigned()
    }
}

/// The remainder of signed numbers, with the dividend's sign; the dividend for a zero divisor.
pub fn rem_signed(a: u32, b: u32) -> u32
    ensures { result ≡ rem_signed a b }
{
    if b == 0 {
        a
    } else {
        a.cast_signed()
            .wrapping_rem(b.cast_signed())
            .cast_unsigned()
    }
}

/// The quotient of unsigned numbers; all bits set for a zero divisor.
pub fn div_unsigned(a: u32, b: u32) -> u32
    ensures { result ≡ div_unsigned a b }
{
    if b == 0 { u32::MAX } else { a / b }
}

/// The remainder of unsigned numbers; the dividend for a zero divisor.
pub fn rem_unsigned(a: u32, b: u32) -> u32
    ensures { result ≡ rem_unsigned a b }
{
    if b == 0 { a } else { a % b }
}
