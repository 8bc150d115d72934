//! A small recording, and what a row that no hart could make does to a log.
ghost use Rattle.std.specs.Prelude.{◌≡◌, ◌∷◌, [], true, false, Some};
ghost use Rattle.file_laws.specs.Common.{order_break, broken_by, are_orderly, IsLawful, an_exit, program_of, kept_of, dropped_of, has_finished};
ghost use Rattle.file_laws.specs.Given.{IsRecording};
ghost use Rattle.file_laws.specs.Examples.{file_of_words, an_exit_begun, a_stray_store, after_a_stray_store};

/// What the laws ask of a recording holds of a file with three instructions that exit.
#[tactic(auto, using(crate::proofs::Worked::an_exit_is_one))]
pub fn an_exit_is_a_recording()
    ensures { IsRecording an_exit.settings (program_of an_exit) (file_of_words an_exit) an_exit.input an_exit.turns }
{}

/// A row that no hart could make ends all, and adds no End: the log keeps a Header alone, which the
/// order of records refuses at its end, byte 146. So a law of finished logs has to ask that each ask
/// was orderly.
#[tactic(auto, using(crate::proofs::Worked::stray_is_lawful, crate::proofs::Worked::stray_is_over, crate::proofs::Worked::stray_is_broken, crate::proofs::Worked::stray_is_not_orderly))]
pub fn a_stray_store_leaves_a_header()
    ensures lawful { IsLawful an_exit.settings (program_of an_exit) an_exit_begun (a_stray_store ∷ []) }
    ensures orderly { are_orderly an_exit.settings (program_of an_exit) an_exit_begun (a_stray_store ∷ []) ≡ false }
    ensures over { has_finished an_exit.settings after_a_stray_store ≡ true }
    ensures broken { broken_by an_exit.settings (dropped_of an_exit.settings after_a_stray_store) (kept_of an_exit.settings after_a_stray_store) ≡ Some (order_break 146 6) }
{}
