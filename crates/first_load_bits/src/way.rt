//! The ways of a set: what one keeps, and which one a line is put into.
ghost use Rattle.std.specs.Prelude.{◌≡◌, ◌<◌, false, length, All, IfSome, IfNone};
ghost use Rattle.first_load_bits.specs.Ways.{HasLine, IsOldest, IsPlaceFor, has_line, has_other, line_in, known_bits};

/// A way of a set: room for a line, of which it keeps the number and bits, and no contents of memory.
#[derive(Clone, Copy, Drop)]
pub struct Way {
    /// The number of its line: an address in it, divided by the number of bytes in a line.
    pub line: u32,
    /// One bit for each of the line's words, at most 16, the lowest bit for the first word. It counts only if the way was
    /// touched after the latest clear.
    pub mask: u16,
    /// The number of the touch that put the line here last, among touches and clears; 0 if the way is empty.
    pub age: u64,
}

// Whether a way has a line.
fn has_line(way: &Way, line: u32) -> bool
    ensures { result ≡ has_line line way.now }
{
    // The line first: it is nearly always another, and no way is empty for long.
    way.line == line && way.age != 0
}

// Whether a way has another line.
pub(crate) fn has_other(way: &Way, line: u32) -> bool
    ensures { result ≡ has_other line way.now }
{
    way.age != 0 && way.line != line
}

// The bits of a way's line, none set if it wasn't touched after the clear of this number.
pub(crate) fn bits(way: &Way, generation: u64) -> u16
    ensures { result ≡ (line_in generation way.now).bits }
{
    if way.age > generation { way.mask } else { 0 }
}

// The bits that are known of a line: those of the way, if it has the line, or else those from below.
pub(crate) fn known_bits(way: &Way, line: u32, generation: u64, below: u16) -> u16
    ensures { result ≡ known_bits generation line below way.now }
{
    if has_line(way, line) {
        bits(way, generation)
    } else {
        below
    }
}

// The place of the way that has a line, if one has it.
#[inline(always)]
pub(crate) fn find(set: &[Way], line: u32) -> Option<usize>
    ensures found { IfSome result (λ at. HasLine line at set.now) }
    ensures none { IfNone result (All (λ w. has_line line w ≡ false) set.now) }
{
    // Four, as most sets have, apart: so they are compared without a loop.
    if set.len() == 4 {
        find_among(set, 4, line)
    } else {
        find_among(set, set.len(), line)
    }
}

// The same, of so many ways.
#[inline(always)]
fn find_among(set: &[Way], count: usize, line: u32) -> Option<usize>
    requires { count ≡ length set.now }
    ensures found { IfSome result (λ at. HasLine line at set.now) }
    ensures none { IfNone result (All (λ w. has_line line w ≡ false) set.now) }
{
    for at in 0..count {
        if has_line(&set[at], line) {
            return Some(at);
        }
    }
    None
}

// The place of an empty way, or else of the one that was touched longest ago.
// Without a branch, which would often be mispredicted: ages follow no order of places.
fn oldest(set: &[Way]) -> usize
    requires { 0 < length set.now }
    ensures { IsOldest result set.now }
{
    let mut oldest = 0usize;
    let mut least = set[0].age;
    for at in 1..set.len() {
        let age = set[at].age;
        oldest = if age < least { at } else { oldest };
        least = least.min(age);
    }
    oldest
}

// The way that a line is put into: the one that has it, else an empty one, else the one that was touched longest ago.
pub(crate) fn place_for(set: &[Way], line: u32) -> usize
    requires { 0 < length set.now }
    ensures { IsPlaceFor line result set.now }
{
    match find(set, line) {
        Some(at) => at,
        None => oldest(set),
    }
}
