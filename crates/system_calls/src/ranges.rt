//! Whether all bytes of a range are mapped or writable, without a test of each byte.
ghost use Rattle.std.specs.Prelude.{◌≡◌, ◌≤◌, ◌<◌, ◌+◌, ℕ, true, not};
ghost use Rattle.bn_base.specs.Programs.{may_load, may_store, is_writable, part_at};
ghost use Rattle.system_calls.specs.Calls.{all_bytes};

use bn_base::{Addr, Image};

/// Whether all of the `len` bytes from `addr` on are mapped.
#[tactic(auto, using(crate::proofs::Bytes::all_mapped))]
pub(crate) fn all_mapped(image: &Image, addr: Addr, len: u32) -> bool
    requires { 0 < len }
    ensures value { result ≡ all_bytes (may_load image.now) addr len }
    ensures bounds { result ≡ true → (4096 ≤ addr) × (addr + len ≤ image.now.memory) }
{
    4096 <= addr && addr as u64 + len as u64 <= image.memory() as u64
}

/// Whether all of the `len` bytes from `addr` on are mapped and not read-only.
#[tactic(auto, using(crate::proofs::Bytes::all_both, crate::proofs::Bytes::not_stored))]
pub(crate) fn all_writable(image: &Image, addr: Addr, len: u32) -> bool
    requires { 0 < len }
    ensures value { result ≡ all_bytes (may_store image.now) addr len }
    ensures bounds { result ≡ true → (4096 ≤ addr) × (addr + len ≤ image.now.memory) }
{
    all_mapped(image, addr, len) && !has_read_only(image, addr, len)
}

// Whether one of the `len` bytes from `addr` on is in a read-only segment. The first segment that
// ends after `addr` is found by binary search; of the later ones, those before the range's end
// are looked at.
fn has_read_only(image: &Image, addr: Addr, len: u32) -> bool
    requires { 0 < len }
    ensures { not result ≡ all_bytes (λ b. is_writable (part_at image.now.parts b)) addr len }
{
    let segments = image.segments();
    let from = addr as u64;
    let to = from + len as u64;
    let start = segments.partition_point(|segment| segment.end() <= from);
    for place in start..segments.len() {
        let segment = &segments[place];
        let first = segment.first() as u64;
        if to <= first {
            return false;
        }
        if !segment.is_writable() && first < segment.end() {
            return true;
        }
    }
    false
}
