//! The state of a hart after a reply: `absorb`, for recorders and replays alike.
ghost use Rattle.std.specs.Prelude.{◌≡◌, IsTrue};
ghost use Rattle.rv_meaning.specs.Execute.{is_exit, after, absorbed};
ghost use Rattle.rv_meaning.specs.Orderly.{is_reply_to};

use crate::access::loaded_value;
use crate::asks::{Ask, Reply, Want};
use crate::moves::{count_up, next_at, next_with};
use bn_base::{HartState, Register};

// Whether the system call of this number ends its hart or the run.
// By the call's number and not by the reply: a hart that is over without an exit keeps its count.
fn is_exit(number: u32) -> bool
    ensures { result ≡ is_exit number }
{
    number == 93 || number == 94
}

/// As [`absorb`], but changes the state in place, which saves copies.
#[inline(always)]
pub fn absorb_in_place(state: &mut HartState, want: &Want, reply: Reply)
    requires { IsTrue (is_reply_to want.now reply) }
    ensures { state.new ≡ after want.now reply state.old }
{
    match *want {
        Want::Load {
            addr,
            width,
            signed,
            rd,
        } => match reply {
            Reply::Word(word) => next_with(state, rd, loaded_value(addr, width, signed, word)),
            _ => {}
        },
        Want::LoadReserved { rd, .. } | Want::Amo { rd, .. } => match reply {
            Reply::Word(word) => next_with(state, rd, word),
            _ => {}
        },
        Want::Store { .. } => match reply {
            Reply::Stored => next_at(state, state.pc.wrapping_add(4)),
            _ => {}
        },
        Want::StoreConditional { rd, .. } => match reply {
            Reply::ScOk => next_with(state, rd, 0),
            Reply::ScFailed => next_with(state, rd, 1),
            _ => {}
        },
        Want::System { number, .. } => match reply {
            Reply::Answer(value) => next_with(state, Register::new(10), value),
            Reply::Over => {
                if is_exit(number) {
                    state.ic = count_up(state.ic);
                }
            }
            _ => {}
        },
        Want::Cut | Want::Faulted { .. } => {}
    }
}

/// The state of a hart after the reply to its ask.
///
/// A load writes its register, SC writes 0 if it stored, else 1, and a system call writes its result
/// to a0. Over leaves pc and registers unchanged, and counts the ECALL of an exit, with number 93 or
/// 94, and nothing else.
pub fn absorb(ask: &Ask, reply: Reply) -> HartState
    requires { IsTrue (is_reply_to ask.now.want reply) }
    ensures { result ≡ absorbed ask.now reply }
{
    let mut state = ask.state;
    absorb_in_place(&mut state, &ask.want, reply);
    state
}
