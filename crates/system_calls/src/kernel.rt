//! What a system call depends on besides its arguments and the program.
use bn_base::Addr;

/// The part of the machine's state that system calls depend on.
#[derive(Clone, Copy, Drop)]
pub struct Kernel {
    /// The present break, the end of the heap.
    pub brk: Addr,
    /// How many bytes of the input are left.
    pub input_left: u64,
    /// How many bytes the first output stream holds.
    pub out_len: u64,
    /// How many bytes the second output stream holds.
    pub err_len: u64,
}
