//! The ring buffer of a recording's log. A byte buffer holds whole records; the oldest give way.
ghost use Rattle.std.specs.Prelude.{◌≡◌, ◌++◌, ◌∷◌, [], ◌+◌, ◌-◌, ◌<◌, ◌≤◌, ◌^◌, length, List, ◌↔◌, IfOk, Some, slice_get, IsTrue};
ghost use Rattle.std.specs.List.{flat_map, AllByRecursion};
ghost use Rattle.log_record.specs.declared.record.Record.{Record};
ghost use Rattle.log_record.specs.Spelling.{bytes_of, total, is_marked, Fits};
ghost use Rattle.log_ring.specs.Whole.{records_in, IsWhole, Oldest};
ghost use Rattle.log_ring.specs.Kept.{kept, held, HoldsLog, GivesUp, Appends, AppendsAll};

use circular_buffer::HeapCircularBuffer;
use log_record::laws::{tags_tell_sizes, written_records_are_read};
use log_record::{Record, size, write};
use std::alloc::{AllocError, Global};
use std::marker::Model;

/// The latest records of those that were appended: as many whole ones as have room in a block of
/// bytes, which is made once.
#[derive(Drop)]
pub struct Ring {
    bytes: HeapCircularBuffer<u8>,
    dropped: u64,
}

impl Model for Ring {
    ghost use Rattle.std.specs.Prelude.{◌≤◌};
    ghost use Rattle.log_ring.specs.Whole.{records_in, IsWhole};
    ghost use Rattle.log_ring.specs.Kept.{Held, held};

    ghost Value = { Held };

    ghost view = { λ r. held (records_in r.bytes.items) r.dropped r.bytes.capacity };

    ghost invariant = { λ r. IsWhole r.bytes.items × (146 ≤ r.bytes.capacity) };
}

fn oldest_tag(bytes: &HeapCircularBuffer<u8>) -> u8
    requires { 0 < length bytes.now.items }
    ensures { slice_get bytes.now.items 0 ≡ Some result }
{
    match bytes.front() {
        Some(tag) => *tag,
        None => unreachable!(),
    }
}

fn oldest_size(bytes: &HeapCircularBuffer<u8>) -> usize
    requires whole { IsWhole bytes.now.items }
    requires some { 0 < length bytes.now.items }
    ensures { Oldest bytes.now.items result }
{
    tags_tell_sizes();
    written_records_are_read();
    match size(oldest_tag(bytes)) {
        Some(size) => size,
        None => unreachable!(),
    }
}

fn drop_oldest(bytes: &mut HeapCircularBuffer<u8>)
    requires whole { IsWhole bytes.old.items }
    requires some { 0 < length bytes.old.items }
    ensures records { (r : Record) × (records_in bytes.old.items ≡ r ∷ records_in bytes.new.items) }
    ensures whole { IsWhole bytes.new.items }
    ensures capacity { bytes.new.capacity ≡ bytes.old.capacity }
    ensures shorter { length bytes.new.items + 2 ≤ length bytes.old.items }
{
    let left = bytes.len() - oldest_size(bytes);
    bytes.truncate_front(left);
}

// Gives up the fewest oldest records, so that at most `room` bytes stay, and says how many went.
fn make_room(bytes: &mut HeapCircularBuffer<u8>, room: usize) -> u64
    requires whole { IsWhole bytes.old.items }
    ensures records { records_in bytes.new.items ≡ kept room (records_in bytes.old.items) }
    ensures whole { IsWhole bytes.new.items }
    ensures capacity { bytes.new.capacity ≡ bytes.old.capacity }
    ensures room { length bytes.new.items ≤ room }
    ensures count { result + length (records_in bytes.new.items) ≡ length (records_in bytes.old.items) }
    ensures most { result ≤ length (records_in bytes.old.items) }
    ensures few { length bytes.old.items ≤ room + 146 → result ≤ 73 }
{
    let _most = bytes.len();
    let mut count = 0;
    'oldest: while bytes.len() > room {
        drop_oldest(bytes);
        count += 1;
    }
    count
}

impl Ring {
    /// An empty ring, for up to `size` bytes of records.
    pub fn new(alloc: Global, size: usize) -> Result<Ring, AllocError>
        requires { 146 ≤ size }
        ensures { IfOk result (λ r. r ≡ held [] 0 size) }
    {
        Ok(Ring {
            bytes: HeapCircularBuffer::with_capacity(alloc, size)?,
            dropped: 0,
        })
    }

    /// How many records it gave up.
    pub fn dropped(&self) -> u64
        ensures { result ≡ self.now.dropped }
    {
        self.dropped
    }

    /// How many bytes its records have, at most its size.
    pub fn len(&self) -> usize
        ensures value { result ≡ total self.now.records }
        ensures bound { result ≤ self.now.size }
    {
        self.bytes.len()
    }

    /// How many bytes its records may have.
    pub fn size(&self) -> usize
        ensures value { result ≡ self.now.size }
        ensures least { 146 ≤ result }
    {
        self.bytes.capacity()
    }

    /// Tells whether it holds no record.
    #[tactic(auto, using(crate::proofs::Cuts::empty_when))]
    pub fn is_empty(&self) -> bool
        ensures { IsTrue result ↔ (self.now.records ≡ []) }
    {
        self.bytes.is_empty()
    }

    /// The bytes of its records, the oldest first: those before a cut, and those after it.
    pub fn pieces(&self) -> (&[u8], &[u8])
        ensures bytes { result.0.now ++ result.1.now ≡ flat_map bytes_of self.now.records }
        ensures fit { AllByRecursion (Fits 2) self.now.records }
        ensures bound { total self.now.records ≤ self.now.size }
    {
        let _within = self.bytes.len();
        self.bytes.as_slices()
    }

    /// A copy of the bytes of its records, the oldest first.
    pub fn copy(&self, alloc: Global) -> Result<Vec<u8>, AllocError>
        ensures bytes { IfOk result (λ v. v.items ≡ flat_map bytes_of self.now.records) }
        ensures fit { AllByRecursion (Fits 2) self.now.records }
        ensures bound { total self.now.records ≤ self.now.size }
    {
        let _within = self.bytes.len();
        self.bytes.to_vec(alloc)
    }

    /// Appends a record of a log of version 1 or 2, for which the fewest oldest ones are given up,
    /// at most 73. Fewer than 2^60 have been appended before. It takes no memory.
    pub fn append(&mut self, entry: &Record)
        requires marked { IsTrue (is_marked 2 entry.now) }
        requires count { self.old.dropped + length self.old.records < 2 ^ 60 }
        ensures latest { self.new.records ≡ kept self.old.size (self.old.records ++ entry.now ∷ []) }
        ensures given_up { GivesUp self.old entry.now self.new }
        ensures size { self.new.size ≡ self.old.size }
        ensures holds { (appended : List Record) → HoldsLog self.old appended → HoldsLog self.new (appended ++ entry.now ∷ []) }
    {
        self.append_bytes(write(entry).as_slice());
    }

    /// Appends records whose bytes are given, one after another, as so many calls of [`append`](Ring::append) do. They fit
    /// together, and fewer than 2^60 have been appended before. It takes no memory.
    #[inline(never)]
    pub fn append_all(&mut self, more: &[u8])
        requires records { (rs : List Record) × AllByRecursion (Fits 2) rs × (more.now ≡ flat_map bytes_of rs) }
        requires size { length more.now ≤ self.old.size }
        requires count { self.old.dropped + length self.old.records < 2 ^ 60 }
        ensures { (rs : List Record) → AllByRecursion (Fits 2) rs → more.now ≡ flat_map bytes_of rs → AppendsAll self.old rs self.new }
    {
        tags_tell_sizes();
        written_records_are_read();
        let room = self.bytes.capacity() - more.len();
        self.dropped += make_room(&mut self.bytes, room);
        self.bytes.extend_from_slice(more);
    }

    // Appends the bytes of a record.
    #[inline(always)]
    fn append_bytes(&mut self, newest: &[u8])
        requires record { (r : Record) × Fits 2 r × (newest.now ≡ bytes_of r) }
        requires count { self.old.dropped + length self.old.records < 2 ^ 60 }
        ensures { (r : Record) → Fits 2 r → newest.now ≡ bytes_of r → Appends self.old r self.new }
    {
        tags_tell_sizes();
        written_records_are_read();
        let room = self.bytes.capacity() - newest.len();
        self.dropped += make_room(&mut self.bytes, room);
        self.bytes.extend_from_slice(newest);
    }
}
