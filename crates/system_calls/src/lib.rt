//! System calls of a guest program, by the conventions of Linux on RISC-V: the number is in a7,
//! the arguments in a0, a1 and a2, and the answer comes in a0.
//!
//! Files that no `pub` below names may change with this crate's proofs alone.
#![tactic(auto)]

pub mod effect;
mod examples;
pub mod kernel;
mod laws;
mod ranges;

ghost use Rattle.std.specs.Prelude.{◌≡◌, ◌≤◌, ◌<◌, ◌-◌, ◌^◌, ℕ, slice_index};
ghost use Rattle.bn_base.specs.Programs.{Program};
ghost use Rattle.system_calls.specs.declared.kernel.Kernel.{Kernel};
ghost use Rattle.system_calls.specs.Calls.{error_answer, read_plan, write_plan, break_plan, stream_len, plan_of, IsWithin};

use bn_base::{Addr, Image};
pub use effect::Plan;
pub use examples::{
    a_bad_address_is_refused, a_break_outside_of_the_heap_is_not_set, a_call_is_short,
    a_full_stream_is_refused, an_unknown_call_is_refused, another_file_is_refused,
};
pub use kernel::Kernel;
pub use laws::exits_alone_end;
use ranges::{all_mapped, all_writable};

/// The most bytes that one read or write takes.
const MOST: u64 = 4096;

/// How many bytes an output stream may hold.
const STREAM_SIZE: u64 = 16_777_216;

// The error numbers of Linux that are answered.
const BAD_FILE: u32 = 9;

const BAD_ADDRESS: u32 = 14;

const NO_SPACE: u32 = 28;

const NO_SUCH_CALL: u32 = 38;

fn error_answer(error: u32) -> Plan
    requires { 1 ≤ error }
    ensures value { result ≡ error_answer error }
    ensures within { (k : Kernel) (i : Program) → IsWithin result k i }
{
    Plan::Answer {
        value: error.wrapping_neg(),
    }
}

fn read(file: u32, addr: Addr, count: u32, kernel: &Kernel, image: &Image) -> Plan
    ensures value { result ≡ read_plan file addr count kernel.now image.now }
    ensures within { IsWithin result kernel.now image.now }
{
    if file != 0 {
        return error_answer(BAD_FILE);
    }
    let len = (count as u64).min(MOST.min(kernel.input_left)) as u32;
    if len == 0 {
        Plan::Answer { value: 0 }
    } else if all_writable(image, addr, len) {
        Plan::Fill { addr, len }
    } else {
        error_answer(BAD_ADDRESS)
    }
}

// How many bytes output stream 1 or 2 holds.
fn stream_len(stream: u32, kernel: &Kernel) -> u64
    ensures { result ≡ stream_len stream kernel.now }
{
    if stream == 1 {
        kernel.out_len
    } else {
        kernel.err_len
    }
}

fn write(file: u32, addr: Addr, count: u32, kernel: &Kernel, image: &Image) -> Plan
    ensures value { result ≡ write_plan file addr count kernel.now image.now }
    ensures within { IsWithin result kernel.now image.now }
{
    if file != 1 && file != 2 {
        return error_answer(BAD_FILE);
    }
    if count == 0 {
        return Plan::Answer { value: 0 };
    }
    let len_before = stream_len(file, kernel);
    if STREAM_SIZE <= len_before {
        return error_answer(NO_SPACE);
    }
    let len = (count as u64).min(MOST.min(STREAM_SIZE - len_before)) as u32;
    if all_mapped(image, addr, len) {
        Plan::Send {
            stream: file,
            addr,
            len,
        }
    } else {
        error_answer(BAD_ADDRESS)
    }
}

fn set_break(value: Addr, kernel: &Kernel, image: &Image) -> Plan
    ensures value { result ≡ break_plan value kernel.now image.now }
    ensures within { IsWithin result kernel.now image.now }
{
    if image.heap_start() <= value && value <= image.heap_limit() {
        Plan::Break { value }
    } else {
        Plan::Answer { value: kernel.brk }
    }
}

/// What the system call of a number does with its arguments, a0, a1 and a2.
///
/// | call | number | what it does |
/// |---|---|---|
/// | read | 63 | fills memory from the input, from file 0 alone |
/// | write | 64 | appends to output stream 1 or 2 |
/// | exit | 93 | ends the hart |
/// | exit_group | 94 | ends the run |
/// | brk | 214 | sets the break, from the heap's start to its limit, and answers it |
///
/// A read or write is short if its count passes 4,096, the input that is left, or the room of
/// the stream, which may hold 2^24 bytes. Errors are tested in this order: -9 for another file, -28
/// for a stream with no room, and -14 for bytes that aren't all mapped (of a read: and writable). A
/// count of 0 is answered with 0 before the last two. Any other number is answered with -38. It
/// takes no memory.
pub fn plan(number: u32, args: [u32; 3], kernel: &Kernel, image: &Image) -> Plan
    ensures value { result ≡ plan_of number (slice_index args 0) (slice_index args 1) (slice_index args 2) kernel.now image.now }
    ensures within { IsWithin result kernel.now image.now }
{
    match number {
        63 => read(args[0], args[1], args[2], kernel, image),
        64 => write(args[0], args[1], args[2], kernel, image),
        93 => Plan::EndHart { code: args[0] },
        94 => Plan::EndRun { code: args[0] },
        214 => set_break(args[0], kernel, image),
        _ => error_answer(NO_SUCH_CALL),
    }
}
