//! Laws of runs: what the turns of a legal list are, as a book of turns has them. These functions do
//! nothing: their contracts are theorems over the definitions of `run_model`.
#![tactic(auto)]

ghost use Rattle.run_laws.specs.Laws.{TurnsAreLawful, TurnsAreOwn, RunsEnd, OwnAsksAreOrderly, TurnsMoveTheirHart, KeptIsAnEnd, OwnRowsGoOn, OwnRowsAreTurns, OwnRowsGrow, ListsGoOn, OwnRowsAreJoined, RepliesFit, LastEndsAreMarks, KeptEndsAreMarks, EdgesAreFew};
ghost use Rattle.run_laws.specs.Retained.{GuardCountsFromHeaders, HeadersAreKept, FaultsAreKept};

mod examples;

pub use examples::{
    a_conditional_needs_a_reservation, a_relay_goes_on_over_intervals, a_seeded_list_ends,
    asks_keep_to_the_budget, rows_of_no_machine_are_not_lawful, rows_of_other_asks_are_not_own,
    seed_0_begins_with_hart_1, the_guard_begins_past_half, the_latest_end_is_the_last,
};
use log_ring::keeping::a_suffix_is_kept;
use race_log::listed_edges_are_all;
use run_model::{each_turn_fits, each_turn_moves_on, guarded_asks_fit, others_stay_fit};
use rv_meaning::each_ask_is_orderly;

/// The rows of a legal list of turns are lawful: each one's hart is live, and its reply and
/// whether its ask was guarded are the machine's after the rows before it.
pub fn turns_are_lawful()
    ensures { TurnsAreLawful }
{}

/// Each hart's rows of a legal list are its own: each asks what the hart asks next, given the replies
/// and the guards before it.
pub fn turns_are_own()
    ensures { TurnsAreOwn }
{
    each_ask_is_orderly();
    each_turn_moves_on();
    guarded_asks_fit();
    each_turn_fits();
    others_stay_fit();
}

/// A run ends: a legal list has at most harts * (limit + 1) turns.
pub fn runs_end()
    ensures { RunsEnd }
{
    each_ask_is_orderly();
    each_turn_moves_on();
    guarded_asks_fit();
    each_turn_fits();
    others_stay_fit();
}

/// What a hart asks next is orderly, after the turns of any legal list.
#[tactic(auto, using(crate::proofs::Turns::orderly_after, crate::proofs::Turns::fit_start))]
pub fn own_asks_are_orderly()
    ensures { OwnAsksAreOrderly }
{
    each_ask_is_orderly();
    each_turn_moves_on();
    guarded_asks_fit();
    each_turn_fits();
    others_stay_fit();
}

/// A turn sets its hart's state to the one after the reply, and leaves the other harts' states.
#[tactic(auto, using(crate::proofs::Turns::turns_move))]
pub fn turns_move_their_hart()
    ensures { TurnsMoveTheirHart }
{}

/// What the log keeps of a run is an end of its records.
pub fn kept_records_are_an_end()
    ensures { KeptIsAnEnd }
{
    a_suffix_is_kept();
}

/// Lawful rows after a run, of which each hart's are its own, are the rows of the turns of their harts.
#[tactic(auto, using(crate::proofs::Converse::are_turns))]
pub fn own_rows_go_on()
    ensures { OwnRowsGoOn }
{
    each_ask_is_orderly();
    each_turn_moves_on();
    guarded_asks_fit();
    each_turn_fits();
    others_stay_fit();
}

/// Takes rows that are lawful from the start, each hart's its own. They are the rows of the turns of their
/// harts, in a legal list whose run they lead to. No ask was out of order.
#[tactic(auto, using(crate::proofs::Turns::fit_start))]
pub fn own_rows_are_turns()
    ensures { OwnRowsAreTurns }
{
    own_rows_go_on();
}

/// A hart that asks what it asks next has one more row of its own; its place is the one after the reply.
pub fn own_rows_grow()
    ensures { OwnRowsGrow }
{}

/// Appending lists of turns appends their rows and continues their runs; the whole is legal if both parts
/// are.
#[tactic(auto, using(crate::proofs::Converse::lists_go_on))]
pub fn lists_go_on()
    ensures { ListsGoOn }
{}

/// Lawful rows from the start, each hart's its own, and after them those of the turns of a list, are the
/// rows of one legal list. All of them are lawful and each hart's own.
#[tactic(auto, using(crate::proofs::Converse::joined))]
pub fn own_rows_are_joined()
    ensures { OwnRowsAreJoined }
{
    own_rows_are_turns();
    lists_go_on();
    turns_are_lawful();
    turns_are_own();
}

/// The reply to an ask is one to what it wants, whoever made it.
#[tactic(auto, using(crate::proofs::Replies::replies_fit))]
pub fn replies_fit()
    ensures { RepliesFit }
{}

/// Each hart's last mark is that of its last End in the stream, after any rows, whoever made their asks. A
/// hart without a mark has no End.
#[tactic(auto, using(crate::proofs::LastEnds::ends_are_marks))]
pub fn last_ends_are_marks()
    ensures { LastEndsAreMarks }
{}

/// A log keeps an end of the stream. If a hart has an End there, its last mark is that of the last one.
#[tactic(auto, using(crate::proofs::LastEnds::kept_ends_are_marks))]
pub fn kept_ends_are_marks()
    ensures { KeptEndsAreMarks }
{}

/// An instruction has at most one Edge from each hart.
#[tactic(auto, using(crate::proofs::Few::few))]
pub fn edges_are_few()
    ensures { EdgesAreFew }
{
    listed_edges_are_all();
}

/// The bytes that the guard compares with half of the log are those of the records from the hart's present
/// Header on, itself included, to the end of the stream.
#[tactic(auto, using(crate::proofs::Retained::guard_counts))]
pub fn guard_counts_from_headers()
    ensures { GuardCountsFromHeaders }
{
    each_ask_is_orderly();
    each_turn_moves_on();
    guarded_asks_fit();
    each_turn_fits();
    others_stay_fit();
}

/// With format 2 a hart's present Header is kept right after each of its turns that leaves it live. If half
/// of the log has no room for the records from the Header on, the hart begins an interval at its ask. What
/// one turn adds has room in the other half.
#[tactic(auto, using(crate::proofs::Retained::headers_kept))]
pub fn headers_are_kept()
    ensures { HeadersAreKept }
{
    each_ask_is_orderly();
    each_turn_moves_on();
    guarded_asks_fit();
    each_turn_fits();
    others_stay_fit();
    edges_are_few();
}

/// With format 2, if a hart's turn ends the run by a fault, the fault's interval is retained: its Header is
/// kept, and after it the End with the fault.
#[tactic(auto, using(crate::proofs::Retained::faults_kept))]
pub fn faults_are_kept()
    ensures { FaultsAreKept }
{
    each_ask_is_orderly();
    each_turn_moves_on();
    guarded_asks_fit();
    each_turn_fits();
    others_stay_fit();
    edges_are_few();
}
