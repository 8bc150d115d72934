//! What the instructions ask that aren't quiet.
//!
//! Each public function here writes what is asked to `want`, and gives false: no quiet instruction.
ghost use Rattle.std.specs.Prelude.{◌≡◌, ◌<◌, [], ◌∷◌, false, slice_index, if◌then◌else◌};
ghost use Rattle.rv_meaning.specs.Execute.{load_or, store_or};
ghost use Rattle.rv_meaning.specs.declared.asks.Want.{Want};
ghost use Rattle.rv_meaning.specs.declared.asks.Want.TheVariants.{Load, Store, LoadReserved, StoreConditional, Amo, System, Faulted};

use crate::amo::AmoOp;
use crate::asks::Want;
use bn_base::{Addr, Fault, Image, Register, Registers};

/// A fault and its value.
pub fn fault(want: &mut Want, kind: Fault, value: u32) -> bool
    ensures asked { want.new ≡ Faulted kind value }
    ensures asks { result ≡ false }
{
    *want = Want::Faulted { kind, value };
    false
}

/// Whether the address passes the tests of a load; if it doesn't, the fault is asked.
#[inline(always)]
pub(crate) fn may_load(want: &mut Want, image: &Image, addr: Addr, width: u8) -> bool
    requires { 0 < width }
    ensures { (w : Want) → load_or image.now addr width w ≡ if result then w else want.new }
{
    if addr % width as u32 != 0 {
        fault(want, Fault::LoadMisaligned, addr)
    } else if !image.may_load(addr) {
        fault(want, Fault::LoadOutside, addr)
    } else {
        true
    }
}

/// Whether the address passes the tests of a store; if it doesn't, the fault is asked.
#[inline(always)]
pub(crate) fn may_store(want: &mut Want, image: &Image, addr: Addr, width: u8) -> bool
    requires { 0 < width }
    ensures { (w : Want) → store_or image.now addr width w ≡ if result then w else want.new }
{
    if addr % width as u32 != 0 {
        fault(want, Fault::StoreMisaligned, addr)
    } else if !image.may_load(addr) {
        fault(want, Fault::StoreOutside, addr)
    } else if !image.may_store(addr) {
        fault(want, Fault::StoreReadOnly, addr)
    } else {
        true
    }
}

/// A load, or its fault.
#[inline(always)]
pub fn load(
    want: &mut Want,
    image: &Image,
    addr: Addr,
    width: u8,
    signed: bool,
    rd: Register,
) -> bool
    requires { 0 < width }
    ensures asked { want.new ≡ load_or image.now addr width (Load addr width signed rd) }
    ensures asks { result ≡ false }
{
    if may_load(want, image, addr, width) {
        *want = Want::Load {
            addr,
            width,
            signed,
            rd,
        };
    }
    false
}

/// A store, or its fault.
#[inline(always)]
pub fn store(want: &mut Want, image: &Image, addr: Addr, width: u8, value: u32) -> bool
    requires { 0 < width }
    ensures asked { want.new ≡ store_or image.now addr width (Store addr width value) }
    ensures asks { result ≡ false }
{
    if may_store(want, image, addr, width) {
        *want = Want::Store { addr, width, value };
    }
    false
}

/// LR.W, or its fault.
pub fn load_reserved(want: &mut Want, image: &Image, addr: Addr, rd: Register) -> bool
    ensures asked { want.new ≡ load_or image.now addr 4 (LoadReserved addr rd) }
    ensures asks { result ≡ false }
{
    if may_load(want, image, addr, 4) {
        *want = Want::LoadReserved { addr, rd };
    }
    false
}

/// SC.W, or its fault.
pub fn store_conditional(
    want: &mut Want,
    image: &Image,
    addr: Addr,
    rd: Register,
    value: u32,
) -> bool
    ensures asked { want.new ≡ store_or image.now addr 4 (StoreConditional addr rd value) }
    ensures asks { result ≡ false }
{
    if may_store(want, image, addr, 4) {
        *want = Want::StoreConditional { addr, rd, value };
    }
    false
}

/// An atomic memory operation, or its fault.
pub fn amo(want: &mut Want, image: &Image, addr: Addr, op: AmoOp, rd: Register, value: u32) -> bool
    ensures asked { want.new ≡ store_or image.now addr 4 (Amo addr op rd value) }
    ensures asks { result ≡ false }
{
    if may_store(want, image, addr, 4) {
        *want = Want::Amo {
            addr,
            op,
            rd,
            value,
        };
    }
    false
}

/// A system call.
pub fn system(want: &mut Want, x: &Registers) -> bool
    ensures asked { want.new ≡ System (slice_index x.now 17) (slice_index x.now 10 ∷ slice_index x.now 11 ∷ slice_index x.now 12 ∷ []) }
    ensures asks { result ≡ false }
{
    let args = [
        x.get(Register::new(10)),
        x.get(Register::new(11)),
        x.get(Register::new(12)),
    ];
    *want = Want::System {
        number: x.get(Register::new(17)),
        args,
    };
    false
}
