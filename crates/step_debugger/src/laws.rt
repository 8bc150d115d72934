//! Laws of sessions. These functions do nothing: their contracts are theorems.
ghost use Rattle.step_debugger.specs.Lines.{RefusalsStay};

/// What is refused of some commands is refused of all that begin with them. So a session that answers all commands
/// has answered each prefix of them.
#[tactic(auto, using(crate::proofs::Prefixes::refusals_stay))]
pub fn refusals_stay()
    ensures { RefusalsStay }
{}
