//! Numbers in commands, decimal and hexadecimal, of at most eight digits.
ghost use Rattle.std.specs.Prelude.{◌≡◌, ◌≤◌, ◌<◌, ◌^◌, length, IfSome};
ghost use Rattle.step_debugger.specs.Numbers.{is_from, digit_value, digit_in, number_in, number_of};

// Whether a byte is one from `low` to `high`.
fn is_from(low: u8, high: u8, byte: u8) -> bool
    ensures { result ≡ is_from low high byte }
{
    low <= byte && byte <= high
}

// The value of a hexadecimal digit, a to f in either case; `None` of any other byte.
fn digit_value(byte: u8) -> Option<u32>
    ensures { result ≡ digit_value byte }
{
    if is_from(b'0', b'9', byte) {
        Some((byte - b'0') as u32)
    } else if is_from(b'a', b'f', byte) {
        Some((byte - b'a' + 10) as u32)
    } else if is_from(b'A', b'F', byte) {
        Some((byte - b'A' + 10) as u32)
    } else {
        None
    }
}

// The value of a digit of a base of at most 16.
fn digit_in(base: u32, byte: u8) -> Option<u32>
    ensures value { result ≡ digit_in base byte }
    ensures bound { IfSome result (λ d. d < base) }
{
    match digit_value(byte) {
        None => None,
        Some(digit) => { if digit < base { Some(digit) } else { None } }
    }
}

// The number that at most eight digits spell.
fn number_in(base: u32, text: &[u8]) -> Option<u32>
    requires base { base ≤ 16 }
    requires length { length text.now ≤ 8 }
    ensures { result ≡ number_in base text.now }
{
    let mut number = 0u64;
    for place in 0..text.len() {
        let digit = digit_in(base, text[place])?;
        number = number * u64::from(base) + u64::from(digit);
    }
    Some(number as u32)
}

/// The number of one digit up to `most`, which is at most eight, in a base of at most 16.
pub(crate) fn number_of(base: u32, most: usize, text: &[u8]) -> Option<u32>
    requires base { base ≤ 16 }
    requires most { most ≤ 8 }
    ensures { result ≡ number_of base most text.now }
{
    if 0 < text.len() && text.len() <= most {
        number_in(base, text)
    } else {
        None
    }
}
