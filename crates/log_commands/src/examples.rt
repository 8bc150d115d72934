// The saves of small logs, and a save that is none of them.
ghost use Rattle.std.specs.Prelude.{◌≡◌, ◌∷◌, []};
ghost use Rattle.log_commands.specs.Effects.{Call};
ghost use Rattle.log_commands.specs.Examples.{by_size, a_log, a_recording};
ghost use Rattle.log_commands.specs.FileCalls.{Saves, SavesTold, saves_of, noted_after};
ghost use Rattle.log_commands.specs.Names.{no_names};
ghost use Rattle.log_commands.specs.declared.names.Role.TheVariants.{Log, Book};
ghost use Rattle.log_commands.specs.Statuses.{code};
ghost use Rattle.log_commands.specs.declared.status.Status.TheVariants.{OutOfMemory};

/// A recording saves its log, and then the list of its turns; each save has its own bytes.
#[tactic(auto, using(crate::proofs::Worked::saves_are, crate::proofs::Worked::sizes_are))]
pub fn a_recording_saves_its_bytes()
    ensures saves { saves_of a_recording ≡ Saves Log (7 ∷ 8 ∷ []) ∷ Saves Book (0 ∷ []) ∷ [] }
    ensures sizes { noted_after by_size no_names 0 (saves_of a_recording) ≡ 5 }
{}

/// Out of memory doesn't excuse that an empty file was saved in place of the log: no store that notes how much
/// it was given has noted 1 then.
pub fn an_empty_file_is_no_log()
    ensures { (k : Call) → SavesTold no_names (saves_of a_log) (code OutOfMemory) by_size 0 1 k → ⊥ }
{}
