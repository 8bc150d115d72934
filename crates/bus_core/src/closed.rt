//! What a closed bus hands over: all that a log file and the outputs are made of.
use bn_base::EndMark;
use log_ring::Ring;

/// What a closed bus hands over.
#[derive(Drop)]
pub struct Closed<B> {
    /// The kept records.
    pub ring: Ring,
    /// The bytes of output stream 1.
    pub out: Vec<u8>,
    /// The bytes of output stream 2.
    pub err: Vec<u8>,
    /// Each hart's last mark; None before one.
    pub ends: Vec<Option<EndMark>>,
    /// How many asks were served.
    pub turns: u64,
    /// Whether the turns left no hart live, and neither a halt nor an ask that isn't orderly ended them.
    pub finished: bool,
    /// The book.
    pub book: B,
}
