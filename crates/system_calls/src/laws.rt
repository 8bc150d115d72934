//! A law of the table of system calls. The function does nothing: its contract is a theorem.
ghost use Rattle.system_calls.specs.Laws.{ExitsAloneEnd};

/// Exit (93) and exit_group (94) end the hart or the run, whatever their arguments, and no other
/// call does.
#[tactic(auto, using(crate::proofs::Exits::exits))]
pub fn exits_alone_end()
    ensures { ExitsAloneEnd }
{}
