//! What a list keeps of a record. A Header's state is kept elsewhere, so that all other records take few bytes.
ghost use Rattle.std.specs.Prelude.{◌≡◌, ◌++◌, OnOk, OnErr};
ghost use Rattle.log_record.specs.Entries.{entry_of, states_of};

use crate::Record;
use bn_base::{EndMark, HartId, HartState, Ic};
use std::alloc::AllocError;
use std::mem::size_of;

/// What is kept of a record at its place: all of it, but for a Header's state, whose place among the
/// states of all Headers is kept. It has 24 bytes.
#[derive(Clone, Copy, Drop)]
pub(crate) enum StoredRecord {
    Header {
        hart: HartId,
        place: usize,
        interval: u64,
    },
    FirstLoad {
        hart: HartId,
        skip: u32,
        value: u32,
    },
    ScOk {
        hart: HartId,
    },
    ScFailed {
        hart: HartId,
    },
    Edge {
        hart: HartId,
        from: HartId,
        ic: Ic,
        from_ic: Ic,
    },
    End {
        hart: HartId,
        mark: EndMark,
    },
}

// The sizes that the list states.
const _: () = prove!(size_of::<StoredRecord>() == 24);

const _: () = prove!(size_of::<HartState>() == 144);

impl StoredRecord {
    /// What is kept of a record; the state of a Header has this place.
    #[inline(always)]
    pub(crate) fn of(entry: &Record, place: usize) -> StoredRecord
        ensures { result ≡ entry_of place entry.now }
    {
        match *entry {
            Record::Header { hart, interval, .. } => StoredRecord::Header {
                hart,
                place,
                interval,
            },
            Record::FirstLoad { hart, skip, value } => StoredRecord::FirstLoad {
                hart,
                skip,
                value,
            },
            Record::ScOk { hart } => StoredRecord::ScOk { hart },
            Record::ScFailed { hart } => StoredRecord::ScFailed { hart },
            Record::Edge {
                hart,
                ic,
                from,
                from_ic,
            } => StoredRecord::Edge {
                hart,
                from,
                ic,
                from_ic,
            },
            Record::End { hart, mark } => StoredRecord::End { hart, mark },
        }
    }
}

/// Appends a record's state, if it is a Header. When out of memory, it changes nothing.
#[inline(always)]
pub(crate) fn keep_state(states: &mut Vec<HartState>, entry: &Record) -> Result<(), AllocError>
    ensures ok { OnOk result (states.new.items ≡ states.old.items ++ states_of entry.now) }
    ensures err { OnErr result (states.new.items ≡ states.old.items) }
{
    match *entry {
        Record::Header { ic, pc, x, .. } => {
            states.push(HartState { pc, x, ic })?;
            Ok(())
        }
        Record::FirstLoad { .. } => Ok(()),
        Record::ScOk { .. } => Ok(()),
        Record::ScFailed { .. } => Ok(()),
        Record::Edge { .. } => Ok(()),
        Record::End { .. } => Ok(()),
    }
}
