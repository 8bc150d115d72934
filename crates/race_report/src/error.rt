//! Why there is no report.
use joint_replay::JointError;
use thiserror::Error;

/// Why there is no race report.
#[derive(Debug, Drop, Error)]
pub enum RaceError {
    /// The joint replay can't continue. The error in it is never `OutOfMemory`.
    #[error("the joint replay is refused")]
    Joint(JointError),
    /// There are more races than were asked for.
    #[error("more than {max} races")]
    TooMany { max: u64 },
    /// Not enough memory.
    #[error("out of memory")]
    OutOfMemory,
}
