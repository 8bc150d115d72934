//! The way into a ring: records wait in a block of bytes, and are appended together. An append by itself costs some hundred
//! instructions, of which most make room; a recording appends a record for every few loads.
ghost use Rattle.std.specs.Prelude.{◌≡◌, ◌++◌, ◌∷◌, [], ◌+◌, ◌<◌, ◌≤◌, ◌^◌, length, List, IsTrue};
ghost use Rattle.std.specs.List.{flat_map};
ghost use Rattle.log_record.specs.declared.record.Record.{Record};
ghost use Rattle.log_record.specs.declared.record.Record.TheVariants.{Edge, FirstLoad};
ghost use Rattle.log_record.specs.Spelling.{bytes_of, is_marked, Fits};
ghost use Rattle.log_ring.specs.Whole.{IsWhole};
ghost use Rattle.log_ring.specs.Kept.{HoldsLog, AppendsAll};
ghost use Rattle.log_ring.specs.Waits.{with_waiting, CanWait, IsPassedOn};

use crate::ring::Ring;
use crate::waiting::{ROOM, Waiting};
use bn_base::{HartId, Ic};
use log_record::laws::{tags_tell_sizes, written_records_are_read};
use log_record::{Record, write, write_edge, write_first_load};
use std::marker::Model;

/// A ring, with records that wait for it. Contracts see the ring that it would be with these in it.
#[derive(Drop)]
pub struct Intake {
    ring: Ring,
    waiting: Waiting,
    // How many bytes may wait: as many as fit the block, and the ring.
    room: usize,
}

impl Model for Intake {
    ghost use Rattle.log_ring.specs.Kept.{Held};
    ghost use Rattle.log_ring.specs.Waits.{with_waiting, IsIntake};

    ghost Value = { Held };

    ghost view = { λ i. with_waiting i.ring i.waiting };

    ghost invariant = { λ i. IsIntake i.ring i.waiting i.room };
}

// Appends what waits to the ring.
#[inline(never)]
fn pass_on(ring: &mut Ring, waiting: &mut Waiting)
    requires can { CanWait ring.old waiting.old }
    ensures { IsPassedOn ring.old waiting.old ring.new waiting.new }
{
    // Proves that the ring's records fit it.
    let _fit = ring.len();
    if !waiting.is_empty() {
        ring.append_all(waiting.as_slice());
        waiting.clear();
    }
}

// The same, unless there is room for so many bytes more.
#[inline(always)]
fn make_way(ring: &mut Ring, waiting: &mut Waiting, room: usize, more: usize)
    requires can { CanWait ring.old waiting.old }
    requires room { length waiting.old ≤ room }
    requires more { more ≤ room }
    ensures same { with_waiting ring.new waiting.new ≡ with_waiting ring.old waiting.old }
    ensures whole { IsWhole waiting.new }
    ensures room { length waiting.new + more ≤ room }
    ensures size { ring.new.size ≡ ring.old.size }
{
    if room - waiting.len() < more {
        pass_on(ring, waiting);
    }
}

impl Intake {
    /// A ring for which nothing waits.
    pub fn new(ring: Ring) -> Intake
        ensures { result ≡ ring }
    {
        // Proves that the ring's records fit it.
        let _fit = ring.len();
        let room = ROOM.min(ring.size());
        Intake {
            ring,
            waiting: Waiting::new(),
            room,
        }
    }

    // Appends the bytes of a record to those that wait.
    #[inline(always)]
    fn append_bytes(&mut self, newest: &[u8])
        requires record { (r : Record) × Fits 2 r × (newest.now ≡ bytes_of r) }
        requires count { self.old.dropped + length self.old.records < 2 ^ 60 }
        ensures { (r : Record) → Fits 2 r → newest.now ≡ bytes_of r → AppendsAll self.old (r ∷ []) self.new }
    {
        tags_tell_sizes();
        written_records_are_read();
        make_way(&mut self.ring, &mut self.waiting, self.room, newest.len());
        self.waiting.push(newest);
    }

    /// Appends a record of a log of version 1 or 2, as [`append`](Ring::append) of a ring does. It takes no memory.
    pub fn append(&mut self, entry: &Record)
        requires marked { IsTrue (is_marked 2 entry.now) }
        requires count { self.old.dropped + length self.old.records < 2 ^ 60 }
        ensures { AppendsAll self.old (entry.now ∷ []) self.new }
    {
        self.append_bytes(write(entry).as_slice());
    }

    /// Appends a FirstLoad, as [`append`](Intake::append) does.
    pub fn append_first_load(&mut self, hart: HartId, skip: u32, value: u32)
        requires { self.old.dropped + length self.old.records < 2 ^ 60 }
        ensures { AppendsAll self.old (FirstLoad hart skip value ∷ []) self.new }
    {
        self.append_bytes(&write_first_load(hart, skip, value));
    }

    /// Appends an Edge, as [`append`](Intake::append) does.
    pub fn append_edge(&mut self, hart: HartId, ic: Ic, from: HartId, from_ic: Ic)
        requires { self.old.dropped + length self.old.records < 2 ^ 60 }
        ensures { AppendsAll self.old (Edge hart ic from from_ic ∷ []) self.new }
    {
        self.append_bytes(&write_edge(hart, ic, from, from_ic));
    }

    /// The ring, with all that waited.
    pub fn into_ring(self) -> Ring
        ensures { result ≡ self }
    {
        let Intake { ring, waiting, .. } = self;
        let mut ring = ring;
        let mut waiting = waiting;
        pass_on(&mut ring, &mut waiting);
        ring
    }
}
