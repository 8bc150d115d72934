//! Laws of replays: what the last records of a run, as those that its log keeps, say of the run. These
//! functions do nothing: their contracts are theorems.
#![tactic(auto)]

ghost use Rattle.replay_laws.specs.Law.{EndsSuffice, LogSuffices, RowsStandTogether, IntervalsBegin, RowsAreCounted};
ghost use Rattle.replay_laws.specs.Known.{WarmWordsStayKnown};
ghost use Rattle.replay_laws.specs.Differing.{EndsThatDifferAreTold};
ghost use Rattle.replay_laws.specs.Splits.{GuardedTurnsSplit};

mod examples;

pub use examples::{
    a_fault_is_replayed, a_filled_word_is_loaded_again, a_guarded_load_is_replayed,
    a_late_fault_is_replayed, a_lost_record_is_missed, a_record_too_many_is_left,
    another_program_ends_otherwise, the_last_interval_is_replayed,
};
use log_ring::keeping::a_suffix_is_kept;
use rv_meaning::{each_ask_is_orderly, each_instruction_is_counted_or_asks};
use system_calls::exits_alone_end;

/// Log sufficiency. Take any program, input, cache, interval length, legal and finished list of turns, and
/// end of its records. Each interval whose Header stands in that end has a replay from it that is done,
/// with exactly the interval's rows of the recorded run. (For one hart the claim of BugNet, ISCA 2005.)
#[tactic(auto, using(crate::proofs::Whole::sufficiency))]
pub fn ends_suffice()
    ensures { EndsSuffice }
{
    each_instruction_is_counted_or_asks();
    each_ask_is_orderly();
    exits_alone_end();
}

/// Log sufficiency of a log: the replay of each interval whose Header it keeps gives exactly the recorded
/// rows.
#[tactic(auto, using(crate::proofs::Whole::of_kept))]
pub fn the_log_suffices()
    ensures { LogSuffices }
{
    ends_suffice();
    a_suffix_is_kept();
}

/// The rows of an interval whose Header stands in an end of the records are those of its hart from the
/// Header's count to the End's. If it ends by a fault, the fault's row is among them.
pub fn the_rows_of_an_interval_stand_together()
    ensures { RowsStandTogether }
{
    each_instruction_is_counted_or_asks();
    each_ask_is_orderly();
    exits_alone_end();
}

/// An interval whose Header stands in an end of the records begins in the run. Some turns lead the hart to
/// the Header's state, or to a turn of its own in which a guarded ask has this state. From there on the
/// interval's rows are the hart's first ones.
pub fn intervals_begin_in_the_run()
    ensures { IntervalsBegin }
{
    each_instruction_is_counted_or_asks();
    each_ask_is_orderly();
    exits_alone_end();
}

/// The rows of a hart have its counts, one after another from 0.
#[tactic(auto, using(crate::proofs::Whole::counted))]
pub fn the_rows_of_a_hart_are_counted()
    ensures { RowsAreCounted }
{
    each_instruction_is_counted_or_asks();
    each_ask_is_orderly();
    exits_alone_end();
}

/// What a hart knows of the words that are warm to it stays true, through its own turns up to the
/// interval's end and through those of the other harts. That is why first loads suffice.
#[tactic(auto, using(crate::proofs::Warmth::warm_words))]
pub fn warm_words_stay_known()
    ensures { WarmWordsStayKnown }
{}

/// If the replay of an interval ends otherwise than its End says, the outcome has the End's own mark and
/// another that differs from it. So it is for every log and every program.
#[tactic(auto, using(crate::proofs::Differing::ends_differ))]
pub fn ends_that_differ_are_told()
    ensures { EndsThatDifferAreTold }
{
    each_instruction_is_counted_or_asks();
}

/// A guarded turn is the beginning of the next interval, and then a turn without a guard.
#[tactic(auto, using(crate::proofs::Splits::splits))]
pub fn guarded_turns_split()
    ensures { GuardedTurnsSplit }
{}
