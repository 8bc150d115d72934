//! The records of a log: what a recorder writes down, so that a replay needs the log and the program alone.
ghost use Rattle.std.specs.Prelude.{◌≡◌, ◌≤◌, length};
ghost use Rattle.log_record.specs.Spelling.{bytes_of, hart_of};

use bn_base::{EndMark, HartId, Ic, Registers};
use le_numbers::laws::numbers_have_their_width;

/// One record of a log. Each belongs to a hart.
#[derive(Clone, Copy, PartialEq, Eq, Drop)]
pub enum Record {
    /// A checkpoint interval begins: its number, the instructions that its hart has done before,
    /// and the hart's pc and registers (BugNet, ISCA 2005, "checkpoint").
    Header {
        hart: HartId,
        interval: u64,
        ic: Ic,
        pc: u32,
        x: Registers,
    },
    /// A first load: so many loading accesses of its hart were skipped since the last logged one,
    /// and the whole aligned word had this value before the access.
    FirstLoad {
        hart: HartId,
        skip: u32,
        value: u32,
    },
    /// A store-conditional that succeeded.
    ScOk {
        hart: HartId,
    },
    /// A store-conditional that failed.
    ScFailed {
        hart: HartId,
    },
    /// An edge of the race log: instruction `ic` of `hart` comes after instruction `from_ic` of
    /// `from` (Netzer 1993).
    Edge {
        hart: HartId,
        ic: Ic,
        from: HartId,
        from_ic: Ic,
    },
    /// A checkpoint interval ends.
    End {
        hart: HartId,
        mark: EndMark,
    },
}

impl Record {
    /// The hart that it belongs to.
    pub fn hart(&self) -> HartId
        ensures { result ≡ hart_of self.now }
    {
        match self {
            Record::Header { hart, .. } => *hart,
            Record::FirstLoad { hart, .. } => *hart,
            Record::ScOk { hart } => *hart,
            Record::ScFailed { hart } => *hart,
            Record::Edge { hart, .. } => *hart,
            Record::End { hart, .. } => *hart,
        }
    }

    /// How many bytes it has in a log.
    pub fn size(&self) -> usize
        ensures value { result ≡ length (bytes_of self.now) }
        ensures bound { result ≤ 146 }
    {
        numbers_have_their_width();
        match self {
            Record::Header { x, .. } => 22 + 4 * x.others().len(),
            Record::FirstLoad { .. } => 10,
            Record::ScOk { .. } => 2,
            Record::ScFailed { .. } => 2,
            Record::Edge { .. } => 19,
            Record::End { .. } => 15,
        }
    }
}
