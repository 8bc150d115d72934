//! The ring of records at its size: the oldest go first, and a long record takes the room of many.
ghost use Rattle.std.specs.Prelude.{◌≡◌, ◌≤◌, ◌<◌, ◌+◌, ◌^◌, IsTrue, length};
ghost use Rattle.log_record.specs.Spelling.{is_marked};

use bn_base::Registers;
use log_record::Record;
use log_ring::Ring;
use std::alloc::{AllocError, Global};
use std::test::*;

fn header(interval: u64) -> Record
    ensures { IsTrue (is_marked 2 result) }
{
    Record::Header {
        hart: 0,
        interval,
        ic: 0,
        pc: 0x0001_0054,
        x: Registers::new([0; 32]),
    }
}

// Appends the same record so many times.
fn append_all(ring: &mut Ring, entry: &Record, count: u32)
    requires marked { IsTrue (is_marked 2 entry.now) }
    requires few { ring.old.dropped + length ring.old.records + count < 2 ^ 60 }
    ensures { ring.new.dropped + length ring.new.records ≡ ring.old.dropped + length ring.old.records + count }
{
    'entries: for _turn in 0..count {
        ring.append(entry);
    }
}

// How many bytes a ring's records have, and how many records it gave up.
fn told(ring: &Ring) -> (usize, u64) {
    (ring.len(), ring.dropped())
}

// Whether a ring's records have these bytes, in a copy and in its two pieces.
fn holds(alloc: Global, ring: &Ring, bytes: &[u8]) -> Result<bool, AllocError> {
    let copy = ring.copy(alloc)?;
    let (front, back) = ring.pieces();
    let pieces = front.len() + back.len() == bytes.len()
        && bytes.starts_with(front)
        && bytes.ends_with(back);
    Ok(copy.as_slice() == bytes && pieces)
}

// Whether all of a ring's records are this FirstLoad.
fn repeats(alloc: Global, ring: &Ring) -> Result<bool, AllocError> {
    let copy = ring.copy(alloc)?;
    let load = [2, 1, 2, 0, 0, 0, 3, 0, 0, 0];
    Ok(copy.chunks(10).all(|part| part == load.as_slice()))
}

// What a ring of 16,384 bytes tells with a Header and 1,623 FirstLoads, and with one FirstLoad more; and whether it
// was empty before these, and has FirstLoads alone after them.
fn oldest_first(alloc: Global) -> Result<(bool, (usize, u64), (usize, u64), bool), AllocError> {
    let load = Record::FirstLoad {
        hart: 1,
        skip: 2,
        value: 3,
    };
    let mut ring = Ring::new(alloc, 16_384)?;
    let empty = ring.is_empty();
    ring.append(&header(0));
    append_all(&mut ring, &load, 1_623);
    let full = told(&ring);
    ring.append(&load);
    let later = told(&ring);
    let repeats = repeats(alloc, &ring)?;
    Ok((empty, full, later, repeats))
}

// 146 + 1,623 * 10 bytes fit into 16,384; with ten more the header goes.
#[test]
fn the_oldest_record_goes_first(rt: HostRuntime) -> Result<(), AllocError> {
    let told = oldest_first(rt.alloc())?;
    assert!(rt; told == (true, (16_376, 0), (16_240, 1), true));
    Ok(())
}

// What a ring tells with 73 of the shortest records, and with the longest in place of them.
fn room_of_73(ring: &mut Ring) -> ((usize, u64), (usize, u64))
    requires few { ring.old.dropped + length ring.old.records < 2 ^ 59 }
    ensures { ring.new.dropped + length ring.new.records ≡ ring.old.dropped + length ring.old.records + 74 }
{
    append_all(ring, &Record::ScOk { hart: 1 }, 73);
    let full = told(ring);
    ring.append(&header(0));
    (full, told(ring))
}

// These in a ring of 146 bytes; and how many records it gave up with one of the shortest more, and whether it has that
// one alone.
fn longest_last(alloc: Global) -> Result<((usize, u64), (usize, u64), u64, bool), AllocError> {
    let mut ring = Ring::new(alloc, 146)?;
    let (full, later) = room_of_73(&mut ring);
    ring.append(&Record::ScFailed { hart: 2 });
    let dropped = ring.dropped();
    let well = holds(alloc, &ring, &[4, 2])?;
    Ok((full, later, dropped, well))
}

// The longest record takes the room of 73 of the shortest.
#[test]
fn a_header_takes_the_room_of_73_records(rt: HostRuntime) -> Result<(), AllocError> {
    let told = longest_last(rt.alloc())?;
    assert!(rt; told == ((146, 0), (146, 73), 74, true));
    Ok(())
}
