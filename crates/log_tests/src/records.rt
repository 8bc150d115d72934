//! The bytes of single records, worked out by hand.
ghost use Rattle.std.specs.Prelude.{◌<◌, IsTrue, length};
ghost use Rattle.log_record.specs.Spelling.{is_marked};

use bn_base::{EndMark, Registers};
use log_record::{Record, read, size, write};
use std::test::*;

// Whether a record is written as these bytes, and read from them, but not from fewer.
fn is_spelt(entry: Record, bytes: &[u8]) -> bool
    requires marked { IsTrue (is_marked 2 entry) }
    requires some { 0 < length bytes.now }
{
    write(&entry).as_slice() == bytes
        && read(bytes) == Some((entry, bytes.len()))
        && read(&bytes[..bytes.len() - 1]).is_none()
        && size(bytes[0]) == Some(bytes.len())
}

fn first_load_is_spelt() -> bool {
    let first_load = Record::FirstLoad {
        hart: 7,
        skip: 0x0403_0201,
        value: 0xdead_beef,
    };
    is_spelt(first_load, &[2, 7, 1, 2, 3, 4, 0xef, 0xbe, 0xad, 0xde])
}

fn edge_is_spelt() -> bool {
    let edge = Record::Edge {
        hart: 1,
        ic: 0x0706_0504_0302_0100,
        from: 2,
        from_ic: 0x1716_1514_1312_1110,
    };
    let bytes = [
        5, 1, 0, 1, 2, 3, 4, 5, 6, 7, 2, 16, 17, 18, 19, 20, 21, 22, 23,
    ];
    is_spelt(edge, &bytes)
}

fn end_is_spelt() -> bool {
    let mark = EndMark {
        ic: 3,
        reason: 3,
        value: 5,
    };
    let end = Record::End { hart: 0, mark };
    is_spelt(end, &[6, 0, 3, 0, 0, 0, 0, 0, 0, 0, 3, 5, 0, 0, 0])
}

#[test]
fn records_have_these_bytes(rt: HostRuntime) {
    assert!(rt; first_load_is_spelt());
    assert!(rt; is_spelt(Record::ScOk { hart: 5 }, &[3, 5]));
    assert!(rt; is_spelt(Record::ScFailed { hart: 6 }, &[4, 6]));
    assert!(rt; edge_is_spelt());
    assert!(rt; end_is_spelt());
}

// A Header has the number of the interval, the count, the pc and x1 to x31; x0 has no bytes.
#[test]
fn headers_leave_x0_out(rt: HostRuntime) {
    let mut contents = [0; 32];
    contents[1] = 0x0102;
    contents[31] = 0x0304;
    let header = Record::Header {
        hart: 3,
        interval: 5,
        ic: 6,
        pc: 0x0001_0054,
        x: Registers::new(contents),
    };
    let mut bytes = [0; 146];
    bytes[0] = 1;
    bytes[1] = 3;
    bytes[2] = 5;
    bytes[10] = 6;
    bytes[18] = 0x54;
    bytes[20] = 1;
    bytes[22] = 2;
    bytes[23] = 1;
    bytes[142] = 4;
    bytes[143] = 3;
    assert!(rt; is_spelt(header, &bytes));
}

// Whether an End with this reason, and this highest byte of its value, is read.
fn is_read(reason: u8, highest: u8) -> bool {
    read(&[6, 0, 3, 0, 0, 0, 0, 0, 0, 0, reason, 0, 0, 0, highest]).is_some()
}

// Which reasons are known.
fn is_known(reason: u8) -> bool {
    match reason {
        1..=5 | 7 | 17..=25 => true,
        _ => false,
    }
}

// Which reasons may have a value other than 0.
fn is_valued(reason: u8) -> bool {
    match reason {
        2..=4 | 17 | 19..=25 => true,
        _ => false,
    }
}

#[test]
fn reasons_are_these(rt: HostRuntime) {
    for reason in 0..=255u8 {
        assert!(rt; is_read(reason, 0) == is_known(reason), "reason {reason}");
        assert!(rt;
            is_read(reason, 1) == is_valued(reason),
            "reason {reason}, value 2^24"
        );
    }
}

#[test]
fn no_record_has_another_tag(rt: HostRuntime) {
    assert!(rt; size(0).is_none() && size(7).is_none());
    assert!(rt; read(&[0; 146]).is_none() && read(&[7; 146]).is_none() && read(&[]).is_none());
}

// The size in memory of a record by itself; in a list it takes less.
#[test]
fn records_have_this_size_in_memory(rt: HostRuntime) {
    assert_eq!(rt; size_of::<Record>(), 160);
}
