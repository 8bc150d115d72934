//! System calls of a small program that are answered with an error, or do less than they are asked for.
ghost use Rattle.std.specs.Prelude.{◌≡◌, ◌-◌, ◌^◌};
ghost use Rattle.system_calls.specs.declared.effect.Plan.TheVariants.{Fill, Send, Break, Answer};
ghost use Rattle.system_calls.specs.Calls.{plan_of};
ghost use Rattle.system_calls.specs.Examples.{a_program, kernel};

/// A call that isn't there is answered with -38.
pub fn an_unknown_call_is_refused()
    ensures { plan_of 1 0 0 0 (kernel 0 0) a_program ≡ Answer (2 ^ 32 - 38) }
{}

/// A read of another file than 0 is answered with -9, and so is a write to it.
pub fn another_file_is_refused()
    ensures read { plan_of 63 3 0 0 (kernel 0 0) a_program ≡ Answer (2 ^ 32 - 9) }
    ensures write { plan_of 64 0 0 0 (kernel 0 0) a_program ≡ Answer (2 ^ 32 - 9) }
{}

/// Bytes that aren't all mapped are answered with -14. So is a read into bytes that can't be stored to; a write sends
/// them.
pub fn a_bad_address_is_refused()
    ensures read { plan_of 63 0 4094 4 (kernel 9 0) a_program ≡ Answer (2 ^ 32 - 14) }
    ensures write { plan_of 64 1 4094 4 (kernel 9 0) a_program ≡ Answer (2 ^ 32 - 14) }
    ensures code { plan_of 63 0 65618 4 (kernel 9 0) a_program ≡ Answer (2 ^ 32 - 14) }
    ensures sent { plan_of 64 1 65618 4 (kernel 9 0) a_program ≡ Send 1 65618 4 }
{}

/// A write to a full stream is answered with -28, even if its bytes aren't mapped; one of no byte with 0.
pub fn a_full_stream_is_refused()
    ensures full { plan_of 64 2 0 4 (kernel 0 16777216) a_program ≡ Answer (2 ^ 32 - 28) }
    ensures nothing { plan_of 64 2 0 0 (kernel 0 16777216) a_program ≡ Answer 0 }
{}

/// A read is short if the input is, and at its end it is answered with 0; a write is short if the stream's room is.
pub fn a_call_is_short()
    ensures read { plan_of 63 0 131072 8 (kernel 3 0) a_program ≡ Fill 131072 3 }
    ensures over { plan_of 63 0 131072 8 (kernel 0 0) a_program ≡ Answer 0 }
    ensures write { plan_of 64 1 131072 8 (kernel 0 16777211) a_program ≡ Send 1 131072 5 }
{}

/// A break outside of the heap is not set: the present one is answered.
pub fn a_break_outside_of_the_heap_is_not_set()
    ensures below { plan_of 214 69631 0 0 (kernel 0 0) a_program ≡ Answer 69632 }
    ensures above { plan_of 214 983041 0 0 (kernel 0 0) a_program ≡ Answer 69632 }
    ensures within { plan_of 214 983040 0 0 (kernel 0 0) a_program ≡ Break 983040 }
{}
