//! The plain machine: a recording without threads. Audits run it, and the bus of threads is made of it.
ghost use Rattle.std.specs.Prelude.{◌≡◌};
ghost use Rattle.run_model.specs.Represents.Parts.{size_of};
ghost use Rattle.run_model.specs.Represents.Plain.{IsTraceFit};

use crate::machine::Machine;
use crate::start::Start;
use crate::trace::Trace;

/// A machine that takes turns one by one, on the caller's thread.
///
/// Contracts say by `IsRun` of its parts which runs of the definition it represents.
#[derive(Drop)]
pub struct Plain {
    pub(crate) start: Start,
    pub(crate) machine: Machine,
    pub(crate) trace: Trace,
    pub(crate) turns: u64,
    ghost memory: { size_of machine ≡ start.image.memory },
    ghost fits: { IsTraceFit start.settings trace turns },
}
