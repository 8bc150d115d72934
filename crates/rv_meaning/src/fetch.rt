//! The code word at a pc. The segment that it was in is kept for the next one.
ghost use Rattle.std.specs.Prelude.{◌≡◌, ℕ, true, None, IfSome, IfNone};
ghost use Rattle.bn_base.specs.Programs.{Program, is_in, part_at, code_in, code_at};
ghost use Rattle.rv_meaning.specs.Held.{IsCode};

use bn_base::{Addr, Image, Segment};

// The executable segment that an address is in, looked up.
#[tactic(auto, using(crate::proofs::Held::is_code))]
fn found<'a>(image: &'a Image, pc: Addr) -> Option<&'a Segment>
    ensures none { IfNone result (code_in (part_at image.now.parts pc) pc ≡ None) }
    ensures code { IfSome result (λ s. IsCode image.now s.now) }
    ensures inside { IfSome result (λ s. is_in s.now pc ≡ true) }
{
    let _apart = image.segments();
    match image.segment_at(pc) {
        None => None,
        Some(segment) => {
            if segment.is_executable() {
                Some(segment)
            } else {
                None
            }
        }
    }
}

/// The executable segment that an address is in: the held one, or else it is looked up.
pub fn code_segment<'a>(
    image: &'a Image,
    held: Option<&'a Segment>,
    pc: Addr,
) -> Option<&'a Segment>
    requires { IfSome held (λ s. IsCode image.now s.now) }
    ensures none { IfNone result (code_in (part_at image.now.parts pc) pc ≡ None) }
    ensures code { IfSome result (λ s. IsCode image.now s.now) }
    ensures inside { IfSome result (λ s. is_in s.now pc ≡ true) }
{
    match held {
        Some(segment) if segment.has(pc) => held,
        _ => found(image, pc),
    }
}

/// The code word at an address; `segment` is the executable segment that the address is in.
pub fn code_word(segment: Option<&Segment>, pc: Addr) -> Option<u32>
    requires { IfSome segment (λ s. is_in s.now pc ≡ true) }
    ensures { (i : Program) → IfNone segment.entry (code_in (part_at i.parts pc) pc ≡ None)
        → IfSome segment.entry (λ s. IsCode i s.now) → result ≡ code_at i pc }
{
    match segment {
        Some(segment) if pc % 4 == 0 => Some(segment.word(pc)),
        _ => None,
    }
}
