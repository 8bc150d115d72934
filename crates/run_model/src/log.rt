//! The log of a run: its ring, with the records that wait for it, and how many bytes it took, by which guards are decided.
ghost use Rattle.std.specs.Prelude.{◌≤◌, ◌*◌};
ghost use Rattle.run_model.specs.Represents.Taken.{taken};

use log_ring::Intake;

/// The ring of the records that are kept, some of which may wait, and how many bytes all records had that it took.
// The bytes are counted beside the ring, in a type that bounds them by 146 a record: so no append overflows, and
// no caller needs a bound of its own.
#[derive(Drop)]
pub struct Log {
    pub ring: Intake,
    pub bytes: u64,
    ghost few: { bytes ≤ 146 * taken ring },
}
