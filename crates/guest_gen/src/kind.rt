//! How a generated program ends.

/// What follows the drawn instructions of a generated program.
#[derive(Clone, Copy, Drop)]
pub enum Kind {
    /// A jump back to the first of them: the program never ends by itself.
    Loop,
    /// A load from address 0, which isn't mapped: each hart that comes there faults.
    Crash,
}
