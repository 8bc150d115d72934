//! How an interval ends: the reason's codes are stored in logs, so the law at the end pins each.
ghost use Rattle.std.specs.Prelude.{◌≡◌, ◌+◌, ℕ};
ghost use Rattle.bn_base.specs.EndMarks.{reason_word};
ghost use Rattle.bn_base.specs.Faults.{fault_number};

use crate::Ic;
use crate::fault::Fault;

/// The end of a checkpoint interval: the number of instructions that the hart has done there,
/// the code of the reason, and the reason's value.
#[derive(Clone, Copy, Debug, PartialEq, Eq, Drop)]
pub struct EndMark {
    pub ic: Ic,
    // A number and not an enum: a record's fields are read before its code is tested.
    pub reason: u8,
    pub value: u32,
}

/// The interval has its full length. The value is 0, and the hart continues.
pub const LENGTH: u8 = 1;

/// A system call after which the hart continues. The value is its result.
pub const CALL: u8 = 2;

/// The hart's exit. The value is its a0.
pub const EXIT: u8 = 3;

/// The exit of all harts. The value is the a0 of the hart that called it.
pub const GROUP: u8 = 4;

/// The run was ended by another hart. The value is 0.
pub const STOPPED: u8 = 5;

/// The guard: ahead of an ask, the records since the interval's Header have more than half of the
/// log size. The value is 0, and the hart continues. Logs of version 1 have no such mark.
pub const GUARD: u8 = 6;

/// The hart has done as many instructions as it may. The value is 0.
pub const LIMIT: u8 = 7;

/// A fault has the code 16 plus its number. The value is the fault's.
pub const FAULT: u8 = 16;

impl EndMark {
    /// The mark of a fault.
    pub fn of_fault(ic: Ic, fault: Fault, value: u32) -> EndMark
        ensures { result ≡ record { ic = ic; reason = 16 + fault_number fault; value = value } }
    {
        EndMark {
            ic,
            reason: FAULT + fault.number(),
            value,
        }
    }

    /// The word for its reason: `length`, `call`, `exit`, `group`, `stopped`, `guard`, `limit` or
    /// the fault's name, and `-` for any other code.
    #[tactic(auto, unfolding(crate::specs::EndMarks::reason_word, crate::specs::Faults::fault_name))]
    pub fn word(&self) -> &'static str
        ensures { result.now ≡ reason_word self.now.reason }
    {
        match self.reason {
            1 => "length",
            2 => "call",
            3 => "exit",
            4 => "group",
            5 => "stopped",
            6 => "guard",
            7 => "limit",
            17 => Fault::Illegal.name(),
            18 => Fault::Breakpoint.name(),
            19 => Fault::FetchOutside.name(),
            20 => Fault::TargetMisaligned.name(),
            21 => Fault::LoadOutside.name(),
            22 => Fault::LoadMisaligned.name(),
            23 => Fault::StoreOutside.name(),
            24 => Fault::StoreMisaligned.name(),
            25 => Fault::StoreReadOnly.name(),
            _ => "-",
        }
    }
}

/// The codes of the reasons are those of the log file (docs/FORMAT.md).
// It is a law, since a clause that cites a constant holds with any number.
pub fn reasons_have_these_codes()
    ensures length { LENGTH ≡ 1 }
    ensures call { CALL ≡ 2 }
    ensures exit { EXIT ≡ 3 }
    ensures group { GROUP ≡ 4 }
    ensures stopped { STOPPED ≡ 5 }
    ensures guard { GUARD ≡ 6 }
    ensures limit { LIMIT ≡ 7 }
    ensures fault { FAULT ≡ 16 }
{}
