//! Why a session of the debugger stops.
use joint_replay::JointError;
use thiserror::Error;

/// Why a session of the debugger stopped before its end.
#[derive(Debug, Drop, Error)]
pub enum DebugError {
    /// A read of the commands failed.
    #[error("a read of the commands failed")]
    ReadFault,
    /// A write of an answer failed.
    #[error("a write of an answer failed")]
    WriteFault,
    /// A line has more than 256 bytes before its LF: this is the number of the first byte too many.
    #[error("a line of {length} bytes")]
    LineTooLong { length: u64 },
    /// The commands have more than 2^24 bytes: this is the number of the first byte too many.
    #[error("commands of {read} bytes")]
    TooMuch { read: u64 },
    /// The joint replay is refused.
    #[error("the joint replay is refused")]
    Joint(JointError),
    /// Not enough memory.
    #[error("out of memory")]
    OutOfMemory,
}
