//! Rows, which are written in the caller's place: each level that passed one up would copy it.
ghost use Rattle.std.specs.Prelude.{◌≡◌, ℕ};
ghost use Rattle.hart_replay.specs.Common.{Program, HartState, done_row, fetched, row_of};

use bn_base::{Addr, Registers, Row};
use rv_meaning::Fetched;

/// A row that tells nothing, to be written.
pub fn blank_row() -> Row {
    Row {
        hart: 0,
        ic: 0,
        pc: 0,
        word: None,
        reg: None,
        load: None,
        store: None,
        fault: None,
    }
}

/// Writes the row that [`Fetched::row`] gives.
#[inline(always)]
pub(crate) fn write_row(
    here: &Fetched,
    x: &Registers,
    load: Option<(Addr, u32)>,
    store: Option<(Addr, u32)>,
    row: &mut Row,
)
    ensures { (h : ℕ) (i : Program) (before after : HartState) → here.now ≡ fetched h i before → x.now ≡ after.x → row.new ≡ row_of h i before after load store }
{
    row.hart = here.hart;
    row.ic = here.ic;
    row.pc = here.pc;
    row.word = here.word;
    row.reg = match here.rd {
        None => None,
        Some(register) => Some((register, x.get(register))),
    };
    row.load = load;
    row.store = store;
    row.fault = None;
}
