//! One turn of a run, as a book keeps it.
use bn_base::HartId;
use rv_meaning::{Ask, Reply};

/// One turn of a hart: what it asked after its quiet instructions, and what it was answered.
/// If the turn is guarded, the hart's interval ended ahead of the answer, in the ask's state, and its
/// next one began there. With settings of format 1 no turn is guarded.
#[derive(Clone, Copy, Drop)]
pub struct TurnRow {
    pub hart: HartId,
    pub ask: Ask,
    pub reply: Reply,
    pub guarded: bool,
}
