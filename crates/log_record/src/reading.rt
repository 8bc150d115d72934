//! Reading a record from the beginning of some bytes, for readers of log files.
ghost use Rattle.std.specs.Prelude.{◌≡◌, ◌≤◌, ◌++◌, ◌∷◌, List, ℕ, Some, length, slice_index, IfSome};
ghost use Rattle.log_record.specs.declared.record.Record.{Record};
ghost use Rattle.log_record.specs.Spelling.{size_of, bytes_of, has_value, has_no_value, is_mark, is_marked, Fits, BeginsWith};
ghost use Rattle.log_record.specs.Reading.{words_at, header_in, first_load_in, edge_in, end_in, record_in};

use crate::laws::{read_records_are_written, tags_tell_sizes, written_records_are_read};
use crate::record::Record;
use bn_base::end_mark::{CALL, EXIT, FAULT, GROUP, GUARD, LENGTH, LIMIT, STOPPED};
use bn_base::{EndMark, Registers};
use le_numbers::{read_u32, read_u64};

// The reason of EBREAK, the second fault (RISC-V unprivileged ISA, 2.8).
const BREAKPOINT: u8 = FAULT + 2;

// The reason of the last fault, a store to a read-only word.
const LAST_FAULT: u8 = FAULT + 9;

/// How many bytes a record has that begins with this byte, its tag; `None` if none begins so.
#[inline(always)]
pub fn size(tag: u8) -> Option<usize>
    ensures value { result ≡ size_of tag }
    ensures bounds { IfSome result (λ size. (2 ≤ size) × (size ≤ 146)) }
{
    match tag {
        1 => Some(146),
        2 => Some(10),
        3 => Some(2),
        4 => Some(2),
        5 => Some(19),
        6 => Some(15),
        _ => None,
    }
}

// Whether an End of this reason has a value of its own.
fn has_value(reason: u8) -> bool
    ensures { result ≡ has_value reason }
{
    match reason {
        CALL | EXIT | GROUP => true,
        BREAKPOINT => false,
        _ => FAULT < reason && reason <= LAST_FAULT,
    }
}

// Whether it is a reason of this format whose value has to be 0.
fn has_no_value(format: u8, reason: u8) -> bool
    ensures { result ≡ has_no_value format reason }
{
    match reason {
        LENGTH | STOPPED | LIMIT => true,
        GUARD => format == 2,
        _ => reason == BREAKPOINT,
    }
}

fn is_mark(format: u8, mark: &EndMark) -> bool
    ensures { result ≡ is_mark format mark.now }
{
    has_value(mark.reason) || (has_no_value(format, mark.reason) && mark.value == 0)
}

#[inline(always)]
fn is_marked(format: u8, entry: &Record) -> bool
    ensures { result ≡ is_marked format entry.now }
{
    match entry {
        Record::End { mark, .. } => is_mark(format, mark),
        _ => true,
    }
}

fn registers_in(bytes: &[u8]) -> Registers
    requires { 146 ≤ length bytes.now }
    ensures { result ≡ 0 ∷ words_at 31 22 bytes.now }
{
    let mut contents = [0; 32];
    for number in 1..32 {
        contents[number] = read_u32(bytes, 18 + 4 * number);
    }
    Registers::new(contents)
}

#[tactic(auto, unfolding(crate::specs::Reading::header_in))]
fn header_in(bytes: &[u8]) -> Record
    requires { 146 ≤ length bytes.now }
    ensures { result ≡ header_in bytes.now }
{
    Record::Header {
        hart: bytes[1],
        interval: read_u64(bytes, 2),
        ic: read_u64(bytes, 10),
        pc: read_u32(bytes, 18),
        x: registers_in(bytes),
    }
}

#[tactic(auto, unfolding(crate::specs::Reading::first_load_in))]
#[inline(always)]
fn first_load_in(bytes: &[u8]) -> Record
    requires { 10 ≤ length bytes.now }
    ensures { result ≡ first_load_in bytes.now }
{
    Record::FirstLoad {
        hart: bytes[1],
        skip: read_u32(bytes, 2),
        value: read_u32(bytes, 6),
    }
}

#[tactic(auto, unfolding(crate::specs::Reading::edge_in))]
fn edge_in(bytes: &[u8]) -> Record
    requires { 19 ≤ length bytes.now }
    ensures { result ≡ edge_in bytes.now }
{
    Record::Edge {
        hart: bytes[1],
        ic: read_u64(bytes, 2),
        from: bytes[10],
        from_ic: read_u64(bytes, 11),
    }
}

#[tactic(auto, unfolding(crate::specs::Reading::end_in))]
fn end_in(bytes: &[u8]) -> Record
    requires { 15 ≤ length bytes.now }
    ensures { result ≡ end_in bytes.now }
{
    Record::End {
        hart: bytes[1],
        mark: EndMark {
            ic: read_u64(bytes, 2),
            reason: bytes[10],
            value: read_u32(bytes, 11),
        },
    }
}

// The record that the fields make, whatever an End's mark.
#[tactic(auto, unfolding(crate::specs::Reading::record_in))]
#[inline(always)]
fn record_in(bytes: &[u8], size: usize) -> Record
    requires size { size_of (slice_index bytes.now 0) ≡ Some size }
    requires enough { size ≤ length bytes.now }
    ensures { result ≡ record_in bytes.now }
{
    match bytes[0] {
        1 => header_in(bytes),
        2 => first_load_in(bytes),
        3 => Record::ScOk { hart: bytes[1] },
        4 => Record::ScFailed { hart: bytes[1] },
        5 => edge_in(bytes),
        _ => end_in(bytes),
    }
}

/// The record of a log of this version that some bytes begin with, and how many bytes it has. Others
/// may follow it. `None` comes if and only if the bytes begin with no such record. Version 2 has one
/// more reason of an End, the guard's.
#[inline(always)]
pub fn read_as(format: u8, bytes: &[u8]) -> Option<(Record, usize)>
    // What is read is there.
    ensures found { IfSome result (λ x. BeginsWith format bytes.now x.0 x.1) }
    // What is there is read, whatever follows it.
    ensures only { (r : Record) (rest : List ℕ) → Fits format r → bytes.now ≡ bytes_of r ++ rest → result ≡ Some (r, length (bytes_of r)) }
{
    tags_tell_sizes();
    written_records_are_read();
    read_records_are_written();
    let tag = *bytes.first()?;
    let size = size(tag)?;
    if bytes.len() < size {
        return None;
    }
    let entry = record_in(bytes, size);
    if is_marked(format, &entry) {
        Some((entry, size))
    } else {
        None
    }
}

/// The record of a log of version 1 that some bytes begin with, and how many bytes it has. `None`
/// comes if and only if the bytes begin with no such record.
#[inline(always)]
pub fn read(bytes: &[u8]) -> Option<(Record, usize)>
    ensures found { IfSome result (λ x. BeginsWith 1 bytes.now x.0 x.1) }
    ensures only { (r : Record) (rest : List ℕ) → Fits 1 r → bytes.now ≡ bytes_of r ++ rest → result ≡ Some (r, length (bytes_of r)) }
{
    read_as(1, bytes)
}
