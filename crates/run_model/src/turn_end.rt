//! What comes after a turn: whether the hart's interval, the hart or the run ends, and for which reason.
ghost use Rattle.std.specs.Prelude.{◌≡◌, ◌≤◌};
ghost use Rattle.run_model.specs.Turn.{counted, after_call, after_access, next_of, by_guard};

use crate::hart::Hart;
use bn_base::end_mark::{CALL, EXIT, FAULT, GROUP, GUARD, LENGTH, LIMIT};
use bn_base::{Ic, Settings};
use rv_meaning::{Reply, Want};
use system_calls::Plan;

/// What comes after a hart's turn: its present interval continues, or it ends for a reason, which has
/// the code and the value of an [`EndMark`](bn_base::EndMark).
#[derive(Clone, Copy, Drop)]
pub enum TurnEnd {
    /// The interval continues.
    GoesOn,
    /// The interval ends, and the hart begins its next one.
    NewInterval { reason: u8, value: u32 },
    /// The interval ends, and the hart is over.
    HartOver { reason: u8, value: u32 },
    /// The interval ends, and the whole run is over.
    RunOver { reason: u8, value: u32 },
}

impl TurnEnd {
    /// A guarded ask ends its hart's interval, and the hart continues.
    pub fn by_guard() -> TurnEnd
        ensures { result ≡ by_guard }
    {
        TurnEnd::NewInterval {
            reason: GUARD,
            value: 0,
        }
    }

    /// What comes after the turn of a hart which leaves its count at `ic`, by its want, the system
    /// call that is planned for it, if one is, and the reply.
    #[inline(always)]
    pub fn of(
        settings: &Settings,
        call: Option<Plan>,
        hart: &Hart,
        want: &Want,
        reply: Reply,
        ic: Ic,
    ) -> TurnEnd
        ensures { result ≡ next_of settings.now call hart.now want.now reply ic }
    {
        match call {
            Some(plan) => TurnEnd::after_call(plan, reply),
            None => TurnEnd::after_access(settings, hart, want, ic),
        }
    }

    // A hart's count at the limit ends it; else an interval that is full ends.
    // After a call at the limit the hart's next turn is a cut without an instruction, which ends it here.
    #[inline(always)]
    fn counted(settings: &Settings, hart: &Hart, ic: Ic) -> TurnEnd
        ensures { result ≡ counted settings.now hart.now ic }
    {
        if settings.limit() <= ic {
            TurnEnd::HartOver {
                reason: LIMIT,
                value: 0,
            }
        } else if u64::from(settings.interval()) <= ic.saturating_sub(hart.begun) {
            TurnEnd::NewInterval {
                reason: LENGTH,
                value: 0,
            }
        } else {
            TurnEnd::GoesOn
        }
    }

    // Each system call ends the interval.
    // Its reason comes before a full interval and the limit: a call that fills the interval ends it as a call.
    fn after_call(plan: Plan, reply: Reply) -> TurnEnd
        ensures { result ≡ after_call plan reply }
    {
        match (plan, reply) {
            (Plan::EndHart { code }, _) => TurnEnd::HartOver {
                reason: EXIT,
                value: code,
            },
            (Plan::EndRun { code }, _) => TurnEnd::RunOver {
                reason: GROUP,
                value: code,
            },
            (_, Reply::Answer(value)) => TurnEnd::NewInterval {
                reason: CALL,
                value,
            },
            _ => TurnEnd::GoesOn,
        }
    }

    // A fault ends the run.
    #[inline(always)]
    fn after_access(settings: &Settings, hart: &Hart, want: &Want, ic: Ic) -> TurnEnd
        ensures { result ≡ after_access settings.now hart.now want.now ic }
    {
        match want {
            Want::Faulted { kind, value } => TurnEnd::RunOver {
                reason: FAULT + kind.number(),
                value: *value,
            },
            _ => TurnEnd::counted(settings, hart, ic),
        }
    }
}
