//! What a hart does next in a joint replay, whether it is ready, and what a step did.
ghost use Rattle.std.specs.Prelude.{◌≡◌};
ghost use Rattle.joint_replay.specs.Lanes.{count_of};

use bn_base::{EndMark, HartId, Ic, Row};

/// What comes next of a hart: an ordering point, a row, or the end of an interval.
#[derive(Clone, Copy, Drop)]
pub enum Coming {
    PassAt { ic: Ic },
    RowAt { ic: Ic },
    EndAt { ic: Ic },
}

impl Coming {
    /// The hart's count there.
    pub fn ic(self) -> Ic
        ensures { result ≡ count_of self }
    {
        match self {
            Coming::PassAt { ic } => ic,
            Coming::RowAt { ic } => ic,
            Coming::EndAt { ic } => ic,
        }
    }
}

/// Whether a hart can take its next step.
#[derive(Clone, Copy, Drop)]
pub enum Readiness {
    Ready,
    /// An instruction of another hart has to be done first.
    Waits { hart: HartId, ic: Ic },
    Done,
}

/// What a step did.
#[derive(Clone, Copy, Drop)]
pub enum Stepped {
    Passed {
        hart: HartId,
        ic: Ic,
    },
    Did(Row),
    Ended {
        hart: HartId,
        interval: u64,
        mark: EndMark,
    },
}

/// The lowest hart that is ready.
#[derive(Clone, Copy, Drop)]
pub enum Next {
    Hart(HartId),
    AllDone,
    NoneReady,
}
