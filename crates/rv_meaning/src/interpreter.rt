//! The quiet instructions of a hart, up to what it asks.
ghost use Rattle.std.specs.Prelude.{◌≡◌, ◌<◌, ◌≤◌, ◌+◌, ◌-◌, ◌^◌, Some, IsTrue};
ghost use Rattle.rv_decode.specs.Seen.{seen};
ghost use Rattle.rv_meaning.specs.Execute.{ask_of};
ghost use Rattle.rv_meaning.specs.Orderly.{orderly};
ghost use Rattle.rv_meaning.specs.Rows.{instruction_at};

use crate::asks::{Ask, Want};
use crate::fetch::{code_segment, code_word};
use crate::moves::count_up;
use crate::steps::step;
use bn_base::{Fault, HartState, Image};
use rv_decode::{Instr, decode};

/// As [`quiet_run`], but changes the state in place and gives the want alone, which saves copies for
/// a hart that asks many times.
pub fn quiet_run_in_place(image: &Image, state: &mut HartState, budget: u64) -> Want
    ensures { record { state = state.new; want = result } ≡ ask_of image.now budget state.old }
{
    let mut segment = None;
    let mut want = Want::Cut;
    for _ in 0..budget {
        segment = code_segment(image, segment, state.pc);
        match code_word(segment, state.pc) {
            None => {
                return Want::Faulted {
                    kind: Fault::FetchOutside,
                    value: state.pc,
                };
            }
            Some(word) => match decode(word) {
                None => {
                    return Want::Faulted {
                        kind: Fault::Illegal,
                        value: word,
                    };
                }
                Some(instr) => {
                    if !step(&instr, image, &mut state.pc, &mut state.x, &mut want) {
                        return want;
                    }
                    state.ic = count_up(state.ic);
                }
            },
        }
    }
    Want::Cut
}

/// Does the instruction at the pc, which is decoded already: as [`quiet_run_in_place`] with a budget
/// of 1.
#[inline(always)]
pub fn step_in_place(instr: &Instr, image: &Image, state: &mut HartState) -> Want
    requires { instruction_at image.now state.old ≡ Some (seen instr.now) }
    ensures { record { state = state.new; want = result } ≡ ask_of image.now 1 state.old }
{
    let mut want = Want::Cut;
    if !step(instr, image, &mut state.pc, &mut state.x, &mut want) {
        return want;
    }
    state.ic = count_up(state.ic);
    Want::Cut
}

/// Does a hart's quiet instructions, at most `budget` of them, and gives what it asks then.
///
/// Quiet are all instructions that don't fault, but loads, stores, atomic instructions and ECALL.
/// After as many as the budget the hart asks for a cut. A count at 2^64 - 1 stays there.
pub fn quiet_run(image: &Image, state: HartState, budget: u64) -> Ask
    ensures value { result ≡ ask_of image.now budget state }
    ensures count { result.state.ic ≤ state.ic + budget }

    // What the hart asks passes the program's tests, and comes within the budget.
    ensures orderly { state.ic + budget < 2 ^ 64 → IsTrue (orderly image.now state.ic budget result) }
{
    let mut state = state;
    let want = quiet_run_in_place(image, &mut state, budget);
    Ask { state, want }
}
