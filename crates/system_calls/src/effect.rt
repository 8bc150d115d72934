//! What a system call does: its plan, which a recorder carries out.
use bn_base::Addr;

/// What a system call does. After all but the ends of a hart and of the run, the hart continues with
/// an answer in a0.
#[derive(Clone, Copy, Debug, Drop)]
pub enum Plan {
    /// The next `len` bytes of the input go to the bytes from `addr` on. The answer is `len`.
    Fill { addr: Addr, len: u32 },
    /// The `len` bytes from `addr` on are appended to output stream 1 or 2. The answer is `len`.
    Send { stream: u32, addr: Addr, len: u32 },
    /// The break is set to `value`, which is the answer.
    Break { value: Addr },
    /// Nothing is done but to answer `value`.
    Answer { value: u32 },
    /// The hart is over.
    EndHart { code: u32 },
    /// The run is over.
    EndRun { code: u32 },
}
