//! What a hart asks of the rest of the machine, and the replies: the only way between a hart and what harts share.
ghost use Rattle.std.specs.Prelude.{◌≡◌};
ghost use Rattle.rv_meaning.specs.Orderly.{passes_store};

use crate::access::is_aligned;
use crate::amo::AmoOp;
use bn_base::{Addr, Fault, HartState, Ic, Image, Register};

/// What a hart asks: one memory access, one system call, a cut, or one fault.
///
/// An address is that of a byte. A width is 1, 2 or 4 bytes. `rd` is the register that the reply
/// is written to, and `value` the contents of rs2, whole whatever the width.
#[derive(Clone, Copy, Debug, PartialEq, Eq, Drop)]
pub enum Want {
    /// A load; `signed` if a byte or halfword is to be sign-extended.
    Load {
        addr: Addr,
        width: u8,
        signed: bool,
        rd: Register,
    },
    /// A store of the lowest `width` bytes of the value.
    Store {
        addr: Addr,
        width: u8,
        value: u32,
    },
    /// LR.W, which also makes the hart's reservation.
    LoadReserved {
        addr: Addr,
        rd: Register,
    },
    /// SC.W, which stores if the hart has a reservation of this word.
    StoreConditional {
        addr: Addr,
        rd: Register,
        value: u32,
    },
    /// An atomic memory operation.
    Amo {
        addr: Addr,
        op: AmoOp,
        rd: Register,
        value: u32,
    },
    /// An ECALL, with the contents of a7 as the number and of a0, a1 and a2 as the arguments.
    System {
        number: u32,
        args: [u32; 3],
    },
    /// Nothing: as many instructions as the budget are done.
    Cut,
    /// The next instruction can't be done; the value is the fault's.
    Faulted {
        kind: Fault,
        value: u32,
    },
}

// Whether a store of this width passes its tests.
fn can_store(image: &Image, addr: Addr, width: u8) -> bool
    ensures { result ≡ passes_store image.now addr width }
{
    is_aligned(addr, width) && image.may_load(addr) && image.may_store(addr)
}

impl Want {
    ghost use Rattle.rv_meaning.specs.Orderly.{passes, is_counted};

    // Whether the access passes its tests; a Breakpoint's value has to be 0.
    fn passes(&self, image: &Image) -> bool
        ensures { result ≡ passes image.now self.now }
    {
        match *self {
            Want::Load { addr, width, .. } => is_aligned(addr, width) && image.may_load(addr),
            Want::LoadReserved { addr, .. } => is_aligned(addr, 4) && image.may_load(addr),
            Want::Store { addr, width, .. } => can_store(image, addr, width),
            Want::StoreConditional { addr, .. } | Want::Amo { addr, .. } => {
                can_store(image, addr, 4)
            }
            Want::System { .. } | Want::Cut => true,
            Want::Faulted { kind, value } => kind != Fault::Breakpoint || value == 0,
        }
    }

    // Whether the count is one for this want, from a hart's count on and within its budget.
    fn is_counted(&self, from: Ic, budget: u64, ic: Ic) -> bool
        ensures { result ≡ is_counted from budget self.now ic }
    {
        match self {
            Want::Cut => ic >= from && ic - from == budget,
            _ => ic >= from && ic - from < budget,
        }
    }
}

/// A hart that asks: its state before the asking instruction, and what it asks.
#[derive(Clone, Copy, Drop)]
pub struct Ask {
    pub state: HartState,
    pub want: Want,
}

impl Ask {
    ghost use Rattle.rv_meaning.specs.Orderly.{orderly};

    /// Whether this can be the ask of a hart that had done `from` instructions and that may do
    /// `budget` more. A cut comes after exactly these, anything else before. An access has 1, 2 or 4
    /// bytes and is aligned and mapped, and if it may store, not read-only. A Breakpoint has the
    /// value 0.
    pub fn is_orderly(&self, image: &Image, from: Ic, budget: u64) -> bool
        ensures { result ≡ orderly image.now from budget self.now }
    {
        self.want.is_counted(from, budget, self.state.ic) && self.want.passes(image)
    }
}

/// The reply to an ask.
#[derive(Clone, Copy, Debug, PartialEq, Eq, Drop)]
pub enum Reply {
    /// To a load, an LR or an AMO: the aligned word of the address, as it was before.
    Word(u32),
    /// To a store: it is done.
    Stored,
    /// To an SC: it has stored.
    ScOk,
    /// To an SC: it has stored nothing.
    ScFailed,
    /// To a system call after which the hart continues: its result.
    Answer(u32),
    /// To a cut: the hart continues.
    Went,
    /// To any ask: the hart is over. It keeps its pc and registers; the ECALL of an exit is counted.
    Over,
}
