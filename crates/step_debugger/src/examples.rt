//! Small sessions, worked out by hand.
ghost use Rattle.std.specs.Prelude.{◌≡◌, ◌+◌, ◌++◌, ◌^◌, [], ◌∷◌, length, replicate, Some, None};
ghost use Rattle.step_debugger.specs.declared.command.DebugCommand.TheVariants.{Other};
ghost use Rattle.step_debugger.specs.declared.error.DebugError.TheVariants.{LineTooLong, TooMuch};
ghost use Rattle.step_debugger.specs.Lines.{ends_in, with_line};
ghost use Rattle.step_debugger.specs.Examples.{commands_of, command_lines, their_commands, other_lines, refusal_of, long_line, last_bytes};
ghost use Rattle.step_debugger.specs.Examples.{leaving_session, leaving_told, returning_session, returning_told, starting_session, starting_told, breaking_session, breaking_told, relay_session, relay_told, crossed_session, crossed_told};
ghost use Rattle.step_debugger.specs.Examples.{IsInTurn, prompt_reads, late_reads, early_reads};

/// Each command.
#[tactic(auto, using(crate::proofs::Worked::commands_read))]
pub fn commands_are_read()
    ensures { commands_of command_lines ≡ their_commands }
{}

/// Lines that are none.
#[tactic(auto, using(crate::proofs::Worked::others_read))]
pub fn other_lines_are_none()
    ensures { commands_of other_lines ≡ replicate (length other_lines) Other }
{}

/// A session of one hart up to a breakpoint, and to its end.
#[tactic(auto, using(crate::proofs::Worked::leaving_is))]
pub fn a_session_is_told()
    ensures { leaving_session ≡ leaving_told }
{}

/// Steps, and ways back to a position, to a breakpoint and to the start.
#[tactic(auto, using(crate::proofs::Worked::returning_is, crate::proofs::Worked::starting_is))]
pub fn ways_back_are_told()
    ensures back { returning_session ≡ returning_told }
    ensures start { starting_session ≡ starting_told }
{}

/// Breakpoints are added once, and taken out once; the first step of a go passes them.
#[tactic(auto, using(crate::proofs::Worked::breaking_is))]
pub fn breakpoints_are_told()
    ensures { breaking_session ≡ breaking_told }
{}

/// Harts that wait, and one at an ordering point.
#[tactic(auto, using(crate::proofs::Worked::relay_is))]
pub fn waiting_harts_are_told()
    ensures { relay_session ≡ relay_told }
{}

/// Two harts that wait for each other: their places, the registers of one, and the end of the
/// session.
#[tactic(auto, using(crate::proofs::Worked::crossed_is))]
pub fn a_stuck_session_is_refused()
    ensures { crossed_session ≡ crossed_told }
{}

/// A line of 256 bytes is read, and one of 257 is too long, with an LF or without.
#[tactic(auto, using(crate::proofs::Worked::full_line_is, crate::proofs::Worked::long_line_is))]
pub fn long_lines_are_refused()
    ensures full { refusal_of (long_line 256 ++ 10 ∷ []) ≡ None }
    ensures long { refusal_of (long_line 257) ≡ Some (LineTooLong 257) }
{}

/// All commands have 2^24 bytes at most.
#[tactic(auto, using(crate::proofs::Worked::last_byte_is, crate::proofs::Worked::one_too_many_is))]
pub fn long_commands_are_refused()
    ensures last { last_bytes (10 ∷ []) ≡ with_line [] (ends_in [] None) }
    ensures more { last_bytes (10 ∷ 10 ∷ []) ≡ with_line [] (ends_in [] (Some (TooMuch (2 ^ 24 + 1)))) }
{}

/// Out has the answer of a line at the next read: not before that line has ended, and not later.
#[tactic(auto, using(crate::proofs::Worked::prompt_is, crate::proofs::Worked::late_is, crate::proofs::Worked::early_is))]
pub fn answers_come_in_turn()
    ensures prompt { IsInTurn prompt_reads }
    ensures late { IsInTurn late_reads → ⊥ }
    ensures early { IsInTurn early_reads → ⊥ }
{}
