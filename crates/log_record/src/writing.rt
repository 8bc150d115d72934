//! Writing a record's bytes.
ghost use Rattle.std.specs.Prelude.{◌≡◌, ◌++◌, ◌∷◌, [], ◌≤◌, ◌<◌, ◌^◌, ◌+◌, drop, length, IsTrue};
ghost use Rattle.std.specs.List.{flat_map, AllByRecursion};
ghost use Rattle.le_numbers.specs.Numbers.{number_bytes};
ghost use Rattle.log_record.specs.declared.record.Record.TheVariants.{Header, FirstLoad, Edge};
ghost use Rattle.log_record.specs.Spelling.{bytes_of, is_marked, AreRegisters, Fits};

use crate::bytes::Bytes;
use crate::record::Record;
use bn_base::{HartId, Ic, Registers};
use le_numbers::laws::numbers_have_their_width;
use le_numbers::{write_u32, write_u64};

fn begin(tag: u8, hart: HartId) -> Bytes
    ensures { result ≡ tag ∷ hart ∷ [] }
{
    let mut bytes = Bytes::new();
    bytes.put(tag);
    bytes.put(hart);
    bytes
}

// The registers but x0, which is always 0.
fn put_registers(bytes: &mut Bytes, x: &Registers)
    requires { length bytes.old ≤ 22 }
    ensures appended { bytes.new ≡ bytes.old ++ flat_map (number_bytes 4) (drop 1 x.now) }
    ensures are { AreRegisters x.now }
{
    let contents = x.contents();
    put_words(bytes, &contents[1..]);
}

// Appends words, the least significant byte of each first. The limits are the longest head of a record, and the
// registers but for x0.
#[tactic(auto, using(crate::proofs::Words::all_small))]
fn put_words(bytes: &mut Bytes, words: &[u32])
    requires length { length bytes.old ≤ 22 }
    requires count { length words.now ≤ 31 }
    ensures appended { bytes.new ≡ bytes.old ++ flat_map (number_bytes 4) words.now }
    ensures are { AllByRecursion (λ w. w < 2 ^ 32) words.now }
{
    for word in words {
        bytes.put_u32(*word);
    }
}

// The bytes of a Header: place and registers at the start of an interval.
fn header(hart: HartId, interval: u64, ic: Ic, pc: u32, x: &Registers) -> Bytes
    ensures bytes { result ≡ bytes_of (Header hart interval ic pc x.now) }
    ensures are { AreRegisters x.now }
{
    let mut bytes = begin(1, hart);
    bytes.put_u64(interval);
    bytes.put_u64(ic);
    bytes.put_u32(pc);
    put_registers(&mut bytes, x);
    bytes
}

fn edge(hart: HartId, ic: Ic, from: HartId, from_ic: Ic) -> Bytes
    ensures { result ≡ bytes_of (Edge hart ic from from_ic) }
{
    let mut bytes = begin(5, hart);
    bytes.put_u64(ic);
    bytes.put(from);
    bytes.put_u64(from_ic);
    bytes
}

/// The bytes of a FirstLoad, as [`write`] gives them.
// Most records of a log are FirstLoads, and `write` makes room for the longest record.
#[inline(always)]
pub fn write_first_load(hart: HartId, skip: u32, value: u32) -> [u8; 10]
    ensures bytes { result ≡ bytes_of (FirstLoad hart skip value) }
    ensures fits { Fits 2 (FirstLoad hart skip value) }
{
    numbers_have_their_width();
    let mut bytes = [2, hart, 0, 0, 0, 0, 0, 0, 0, 0];
    write_u32(&mut bytes, 2, skip);
    write_u32(&mut bytes, 6, value);
    bytes
}

/// The bytes of an Edge, as [`write`] gives them.
// The log of several harts has about as many Edges as FirstLoads.
#[inline(always)]
pub fn write_edge(hart: HartId, ic: Ic, from: HartId, from_ic: Ic) -> [u8; 19]
    ensures bytes { result ≡ bytes_of (Edge hart ic from from_ic) }
    ensures fits { Fits 2 (Edge hart ic from from_ic) }
{
    numbers_have_their_width();
    let mut bytes = [
        5, hart, 0, 0, 0, 0, 0, 0, 0, 0, from, 0, 0, 0, 0, 0, 0, 0, 0,
    ];
    write_u64(&mut bytes, 2, ic);
    write_u64(&mut bytes, 11, from_ic);
    bytes
}

/// The bytes of a record: the tag, the hart and the fields in their order, each number with its
/// least significant byte first. The mark of an End is one that an interval can have, in a log of
/// version 1 or 2.
pub fn write(entry: &Record) -> Bytes
    requires { IsTrue (is_marked 2 entry.now) }
    ensures bytes { result ≡ bytes_of entry.now }
    ensures fits { Fits 2 entry.now }
{
    match entry {
        Record::Header {
            hart,
            interval,
            ic,
            pc,
            x,
        } => header(*hart, *interval, *ic, *pc, x),
        Record::FirstLoad { hart, skip, value } => {
            let mut bytes = begin(2, *hart);
            bytes.put_u32(*skip);
            bytes.put_u32(*value);
            bytes
        }
        Record::ScOk { hart } => begin(3, *hart),
        Record::ScFailed { hart } => begin(4, *hart),
        Record::Edge {
            hart,
            ic,
            from,
            from_ic,
        } => edge(*hart, *ic, *from, *from_ic),
        Record::End { hart, mark } => {
            let mut bytes = begin(6, *hart);
            bytes.put_u64(mark.ic);
            bytes.put(mark.reason);
            bytes.put_u32(mark.value);
            bytes
        }
    }
}
