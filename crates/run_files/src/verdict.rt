//! What an audit finds.

/// What an audit finds.
#[derive(Clone, Copy, Drop)]
pub enum Verdict {
    /// The bytes are those of the file.
    Agree,
    /// The first place, counted from 0, at which the bytes differ or one of the two ends.
    Differ { at_byte: u64 },
}
