//! The words that an instruction accesses: what caches and race log are told of it.
ghost use Rattle.std.specs.Prelude.{◌≡◌, ◌/◌, ◌*◌};
ghost use Rattle.run_model.specs.Machine.{word_count};
ghost use Rattle.run_model.specs.Turn.{call_span, sc_span, access_span, span_of, loading};

use bn_base::Addr;
use race_log::Mode;
use rv_meaning::{Reply, Want};
use system_calls::Plan;

/// The aligned words that an instruction accesses: `count` of them from `first` on, read or written.
#[derive(Clone, Copy, Drop)]
pub struct Span {
    pub first: Addr,
    pub count: u32,
    pub mode: Mode,
}

/// How many aligned words have some of `len` bytes from an address on.
pub(crate) fn word_count(addr: Addr, len: u32) -> u32
    ensures { result ≡ word_count addr len }
{
    let end = u64::from(addr) + u64::from(len) + 3;
    (end / 4 - u64::from(addr / 4)) as u32
}

impl Span {
    /// The words that the asking instruction accesses, if it accesses some: by its want, the system
    /// call that is planned for it, if one is, and the reply.
    pub fn of(call: Option<Plan>, want: &Want, reply: Reply) -> Option<Span>
        ensures { result ≡ span_of call want.now reply }
    {
        match call {
            Some(plan) => Span::of_call(plan),
            None => Span::of_access(want, reply),
        }
    }

    // A system call writes the words of the bytes that it fills, and reads those of the bytes that
    // it sends.
    fn of_call(plan: Plan) -> Option<Span>
        ensures { result ≡ call_span plan }
    {
        match plan {
            Plan::Fill { addr, len } => Some(Span::of_bytes(addr, len, Mode::Write)),
            Plan::Send { addr, len, .. } => Some(Span::of_bytes(addr, len, Mode::Read)),
            _ => None,
        }
    }

    fn of_bytes(addr: Addr, len: u32, mode: Mode) -> Span
        ensures { result ≡ record { first = addr / 4 * 4; count = word_count addr len; mode = mode } }
    {
        Span {
            first: addr / 4 * 4,
            count: word_count(addr, len),
            mode,
        }
    }

    fn of_word(addr: Addr, mode: Mode) -> Span
        ensures { result ≡ record { first = addr; count = 1; mode = mode } }
    {
        Span {
            first: addr,
            count: 1,
            mode,
        }
    }

    fn of_access(want: &Want, reply: Reply) -> Option<Span>
        ensures { result ≡ access_span want.now reply }
    {
        match want {
            Want::Load { addr, .. } => Some(Span::of_word(addr / 4 * 4, Mode::Read)),
            Want::LoadReserved { addr, .. } => Some(Span::of_word(*addr, Mode::Read)),
            Want::Store { addr, .. } => Some(Span::of_word(addr / 4 * 4, Mode::Write)),
            Want::Amo { addr, .. } => Some(Span::of_word(*addr, Mode::Write)),
            Want::StoreConditional { addr, .. } => Span::of_conditional(*addr, reply),
            Want::System { .. } | Want::Cut | Want::Faulted { .. } => None,
        }
    }

    // An SC that failed accesses nothing.
    fn of_conditional(addr: Addr, reply: Reply) -> Option<Span>
        ensures { result ≡ sc_span reply addr }
    {
        match reply {
            Reply::ScOk => Some(Span::of_word(addr, Mode::Write)),
            _ => None,
        }
    }
}

/// The aligned word that a loading access reads: a load, LR, AMO, or a store of a byte or halfword,
/// which keeps the rest of its word.
#[inline(always)]
pub fn loading(want: &Want) -> Option<Addr>
    ensures { result ≡ loading want.now }
{
    match want {
        Want::Load { addr, .. } => Some(addr / 4 * 4),
        Want::LoadReserved { addr, .. } | Want::Amo { addr, .. } => Some(*addr),
        Want::Store { addr, width, .. } if *width != 4 => Some(addr / 4 * 4),
        _ => None,
    }
}
