//! Lines whose meaning is worked out, so that the definition is seen at work.
ghost use Rattle.std.specs.Prelude.{◌≡◌, ◌∷◌, [], Some, None, true, codes};
ghost use Rattle.bn_base.specs.Ranges.{default_settings};
ghost use Rattle.command_words.specs.Words.{RecordLine, ReplayLine, JointLine, DebugLine, ListLine, CheckLine, AuditLine, RacesLine, SliceLine, ConvertLine, SalvageLine, DemoLine, line_of};
ghost use Rattle.command_words.specs.Examples.{said, plain, two_level_words, two_levels};

/// Options stand before, between and after names, with `=` or in two words. Settings that aren't
/// given have their defaults.
#[tactic(auto, unfolding(crate::specs::Words::line_of, clap::proofs::OnLiterals::clap_on_literals))]
pub fn options_stand_anywhere()
    ensures before { said (codes "record" ∷ codes "--seed" ∷ codes "5" ∷ codes "E" ∷ codes "L" ∷ codes "B" ∷ []) ≡ Some (RecordLine plain) }
    ensures between { said (codes "record" ∷ codes "E" ∷ codes "--seed=5" ∷ codes "L" ∷ codes "B" ∷ []) ≡ Some (RecordLine plain) }
    ensures after { said (codes "record" ∷ codes "E" ∷ codes "L" ∷ codes "B" ∷ codes "--input" ∷ codes "F" ∷ codes "--seed" ∷ codes "5" ∷ []) ≡ Some (RecordLine (record plain { input = Some (codes "F") })) }
    ensures no_seed { said (codes "record" ∷ codes "E" ∷ codes "L" ∷ codes "B" ∷ []) ≡ Some (RecordLine (record plain { seed = None })) }
    ensures lean { said (codes "record" ∷ codes "--lean" ∷ codes "E" ∷ codes "L" ∷ codes "B" ∷ codes "--seed=5" ∷ []) ≡ Some (RecordLine (record plain { lean = true })) }
    ensures setting { said (codes "record" ∷ codes "--ways" ∷ codes "2" ∷ codes "E" ∷ codes "L" ∷ codes "B" ∷ codes "--seed=5" ∷ []) ≡ Some (RecordLine (record plain { settings = record default_settings { ways = 2 } })) }
    ensures format { said two_level_words ≡ Some (RecordLine two_levels) }
{}

/// The other commands, each with its names and numbers in order.
#[tactic(auto, unfolding(crate::specs::Words::line_of, clap::proofs::OnLiterals::clap_on_literals))]
pub fn each_command_is_taken()
    ensures replay { said (codes "replay" ∷ codes "L" ∷ codes "E" ∷ codes "3" ∷ codes "70" ∷ []) ≡ Some (ReplayLine (codes "L") (codes "E") 3 70) }
    ensures joint { said (codes "joint" ∷ codes "L" ∷ codes "E" ∷ []) ≡ Some (JointLine (codes "L") (codes "E")) }
    ensures list { said (codes "list" ∷ codes "L" ∷ []) ≡ Some (ListLine (codes "L")) }
    ensures check { said (codes "check" ∷ codes "L" ∷ []) ≡ Some (CheckLine (codes "L")) }
    ensures debug { said (codes "debug" ∷ codes "L" ∷ codes "E" ∷ []) ≡ Some (DebugLine (codes "L") (codes "E")) }
    ensures audit { said (codes "audit" ∷ codes "L" ∷ codes "E" ∷ codes "B" ∷ []) ≡ Some (AuditLine (codes "L") (codes "E") (codes "B") None) }
    ensures input { said (codes "audit" ∷ codes "L" ∷ codes "--input=F" ∷ codes "E" ∷ codes "B" ∷ []) ≡ Some (AuditLine (codes "L") (codes "E") (codes "B") (Some (codes "F"))) }
    ensures races { said (codes "races" ∷ codes "L" ∷ codes "E" ∷ codes "1000000" ∷ []) ≡ Some (RacesLine (codes "L") (codes "E") 1000000) }
    ensures slice { said (codes "slice" ∷ codes "L" ∷ codes "E" ∷ codes "3" ∷ codes "70" ∷ codes "9" ∷ []) ≡ Some (SliceLine (codes "L") (codes "E") 3 70 9) }
    ensures convert { said (codes "convert" ∷ codes "L" ∷ codes "N" ∷ []) ≡ Some (ConvertLine (codes "L") (codes "N")) }
    ensures salvage { said (codes "salvage" ∷ codes "L" ∷ codes "N" ∷ []) ≡ Some (SalvageLine (codes "L") (codes "N")) }
    ensures demo { said (codes "demo" ∷ codes "7" ∷ []) ≡ Some (DemoLine 7) }
{}

/// Numbers are decimal, may have a plus sign and leading zeros, and end below 2^64. The most races that are listed are from 1
/// to 1,000,000.
#[tactic(auto, unfolding(crate::specs::Words::line_of, clap::proofs::OnLiterals::clap_on_literals))]
pub fn numbers_are_decimal()
    ensures signed { said (codes "replay" ∷ codes "L" ∷ codes "E" ∷ codes "0" ∷ codes "+5" ∷ []) ≡ Some (ReplayLine (codes "L") (codes "E") 0 5) }
    ensures zeros { said (codes "replay" ∷ codes "L" ∷ codes "E" ∷ codes "0" ∷ codes "007" ∷ []) ≡ Some (ReplayLine (codes "L") (codes "E") 0 7) }
    ensures greatest { said (codes "replay" ∷ codes "L" ∷ codes "E" ∷ codes "0" ∷ codes "18446744073709551615" ∷ []) ≡ Some (ReplayLine (codes "L") (codes "E") 0 18446744073709551615) }
    ensures too_great { said (codes "replay" ∷ codes "L" ∷ codes "E" ∷ codes "0" ∷ codes "18446744073709551616" ∷ []) ≡ None }
    ensures too_many_races { said (codes "races" ∷ codes "L" ∷ codes "E" ∷ codes "1000001" ∷ []) ≡ None }
    ensures no_races { said (codes "races" ∷ codes "L" ∷ codes "E" ∷ codes "0" ∷ []) ≡ None }
    ensures no_number { said (codes "replay" ∷ codes "L" ∷ codes "E" ∷ codes "0" ∷ codes "x" ∷ []) ≡ None }
{}

/// After `--` all words are names. `-` alone is a name, and so is a command's.
#[tactic(auto, unfolding(crate::specs::Words::line_of, clap::proofs::OnLiterals::clap_on_literals))]
pub fn names_may_look_like_other_words()
    ensures dashes { said (codes "check" ∷ codes "--" ∷ codes "--help" ∷ []) ≡ Some (CheckLine (codes "--help")) }
    ensures dash { said (codes "check" ∷ codes "-" ∷ []) ≡ Some (CheckLine (codes "-")) }
    ensures command { said (codes "check" ∷ codes "record" ∷ []) ≡ Some (CheckLine (codes "record")) }
{}

/// A word too few or too many, an option that is repeated, shortened or unknown, and what asks for
/// help or the version are refused.
#[tactic(auto, unfolding(crate::specs::Words::line_of, clap::proofs::OnLiterals::clap_on_literals))]
pub fn other_lines_are_refused()
    ensures no_words { line_of [] ≡ None }
    ensures no_command { said [] ≡ None }
    ensures no_number { said (codes "record" ∷ codes "--seed" ∷ codes "E" ∷ codes "L" ∷ codes "B" ∷ []) ≡ None }
    ensures no_name { said (codes "record" ∷ codes "--seed=5" ∷ codes "E" ∷ codes "L" ∷ []) ≡ None }
    ensures no_book { said (codes "audit" ∷ codes "L" ∷ codes "E" ∷ []) ≡ None }
    ensures no_demo_seed { said (codes "demo" ∷ []) ≡ None }
    ensures one_more { said (codes "check" ∷ codes "L" ∷ codes "L" ∷ []) ≡ None }
    ensures valued { said (codes "record" ∷ codes "--lean=true" ∷ codes "E" ∷ codes "L" ∷ codes "B" ∷ []) ≡ None }
    ensures repeated { said (codes "record" ∷ codes "--seed=5" ∷ codes "--seed=5" ∷ codes "E" ∷ codes "L" ∷ codes "B" ∷ []) ≡ None }
    ensures shortened { said (codes "record" ∷ codes "--see=5" ∷ codes "E" ∷ codes "L" ∷ codes "B" ∷ []) ≡ None }
    ensures unknown { said (codes "check" ∷ codes "--deep" ∷ codes "L" ∷ []) ≡ None }
    ensures help { said (codes "help" ∷ []) ≡ None }
    ensures help_of_a_command { said (codes "check" ∷ codes "L" ∷ codes "--help" ∷ []) ≡ None }
    ensures version { said (codes "--version" ∷ []) ≡ None }
{}
