//! Moves of a hart's state by one instruction, of which the others are made.
ghost use Rattle.std.specs.Prelude.{◌≡◌};
ghost use Rattle.rv_meaning.specs.Execute.{count_up, next_at, next_with};

use bn_base::{Addr, HartState, Ic, Register};

/// One instruction more; a count at 2^64 - 1 stays there.
pub fn count_up(ic: Ic) -> Ic
    ensures { result ≡ count_up ic }
{
    ic.saturating_add(1)
}

/// Continues at `pc`.
pub fn next_at(state: &mut HartState, pc: Addr)
    ensures { state.new ≡ next_at pc state.old }
{
    state.pc = pc;
    state.ic = count_up(state.ic);
}

/// Writes `value` to `rd`, and continues at the following instruction.
pub fn next_with(state: &mut HartState, rd: Register, value: u32)
    ensures { state.new ≡ next_with rd value state.old }
{
    state.x.put(rd, value);
    state.pc = state.pc.wrapping_add(4);
    state.ic = count_up(state.ic);
}
