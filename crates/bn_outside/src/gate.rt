//! Gates, the scheduler hooks between the turns of harts in threads. Tests order turns by them; recordings have none.
use bn_base::HartId;

/// What the worker of each hart calls around its turns. Threads share it, and it tells nothing.
///
/// A gate can delay a worker, so that tests see harts meet or take turns in a given order. Each
/// order that it brings about could have come without it.
// A call gets no runtime: a yield needs none. So each call returns, of the gates here after at most 10,000,000
// yields.
pub trait Gate: Sync {
    /// Called before each turn: the hart has done its quiet instructions and holds no lock.
    fn pass(&self, hart: HartId);

    /// Called after each turn in which the hart was served, once it holds no lock again.
    fn served(&self, hart: HartId);
}

/// A gate that never holds a hart.
#[derive(Drop)]
pub struct OpenGate;

impl Gate for OpenGate {
    fn pass(&self, _hart: HartId) {}

    fn served(&self, _hart: HartId) {}
}
