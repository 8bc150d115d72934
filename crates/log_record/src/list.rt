//! A list of records, in little memory: Headers' states are kept apart. Contracts see the records alone.
ghost use Rattle.std.specs.Prelude.{◌≡◌, ◌<◌, ◌^◌, ◌++◌, ◌∷◌, [], length, slice_index_or, is_ok, if◌then◌else◌, IfOk, IsTrue, ◌↔◌};
ghost use Rattle.log_record.specs.Entries.{record_of};

use crate::Record;
use crate::stored_record::{StoredRecord, keep_state};
use bn_base::HartState;
use std::alloc::{AllocError, Global};
use std::marker::Model;

/// A list of records. Contracts see the records in their order.
///
/// It takes 24 bytes of memory for each record, and 144 more for each Header, whose state is kept
/// apart.
#[derive(Drop)]
pub struct RecordList {
    entries: Vec<StoredRecord>,
    states: Vec<HartState>,
}

impl Model for RecordList {
    ghost use Rattle.std.specs.Prelude.{List, length, map};
    ghost use Rattle.std.specs.List.{AllByRecursion};
    ghost use Rattle.log_record.specs.declared.record.Record.{Record};
    ghost use Rattle.log_record.specs.Entries.{record_of, IsKept};

    ghost Value = { List Record };

    ghost view = { λ l. map (record_of l.states.items) l.entries.items };

    ghost invariant = { λ l. AllByRecursion (IsKept (length l.states.items)) l.entries.items };
}

impl RecordList {
    /// No records. No memory is taken.
    pub fn new(alloc: Global) -> RecordList
        ensures { result ≡ [] }
    {
        RecordList {
            entries: Vec::new(alloc),
            states: Vec::new(alloc),
        }
    }

    /// No records, and memory for so many but for the states of Headers.
    pub fn with_capacity(alloc: Global, count: usize) -> Result<RecordList, AllocError>
        ensures { IfOk result (λ list. list ≡ []) }
    {
        Ok(RecordList {
            entries: Vec::with_capacity(alloc, count)?,
            states: Vec::new(alloc),
        })
    }

    /// Appends a record. When out of memory, it changes nothing.
    pub fn push(&mut self, entry: Record) -> Result<(), AllocError>
        ensures { self.new ≡ (if is_ok result then self.old ++ entry ∷ [] else self.old) }
    {
        let place = self.states.len();
        keep_state(&mut self.states, &entry)?;
        self.entries.push(StoredRecord::of(&entry, place))?;
        Ok(())
    }

    /// How many records there are.
    pub fn len(&self) -> usize
        ensures value { result ≡ length self.now }
        ensures bound { result < 2 ^ 63 }
    {
        self.entries.len()
    }

    /// Tells whether there are none.
    pub fn is_empty(&self) -> bool
        ensures { IsTrue result ↔ (self.now ≡ []) }
    {
        self.entries.is_empty()
    }

    /// The record at a place, counted from 0.
    #[inline(always)]
    pub fn get(&self, place: usize) -> Record
        requires { place < length self.now }
        ensures { result ≡ slice_index_or self.now place result }
    {
        match self.entries[place] {
            StoredRecord::Header {
                hart,
                place,
                interval,
            } => {
                let state = &self.states[place];
                Record::Header {
                    hart,
                    interval,
                    ic: state.ic,
                    pc: state.pc,
                    x: state.x,
                }
            }
            StoredRecord::FirstLoad { hart, skip, value } => Record::FirstLoad {
                hart,
                skip,
                value,
            },
            StoredRecord::ScOk { hart } => Record::ScOk { hart },
            StoredRecord::ScFailed { hart } => Record::ScFailed { hart },
            StoredRecord::Edge {
                hart,
                from,
                ic,
                from_ic,
            } => Record::Edge {
                hart,
                ic,
                from,
                from_ic,
            },
            StoredRecord::End { hart, mark } => Record::End { hart, mark },
        }
    }
}
