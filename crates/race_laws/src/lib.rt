//! Laws of races over runs: the Edges of a recording are Netzer's, and those of any end of its records,
//! as of what the log keeps, order its conflicts. These functions do nothing: their contracts are
//! theorems.
#![tactic(auto)]

ghost use Rattle.race_laws.specs.Runs.{OfLists, OfRows};
ghost use Rattle.race_laws.specs.Orders.{BeginningsGoOn};
ghost use Rattle.race_laws.specs.Laws.{EdgesAreNetzers, HasOrder, HasEdgesByCount, KeepsLateEdges, OrdersConflicts};
ghost use Rattle.race_laws.specs.Laws.{HasEdgesOfInstructions, HasNoImpliedEdge, HasLeastEdges};
ghost use Rattle.race_laws.specs.Laws.{KeepsEdgesAlone, KeepsWords, ReplayedAreSinceHeaders};

mod examples;

pub use examples::{a_relay_has_two_edges, edges_through_a_dropped_interval_are_kept};
use race_log::{
    edges_are_needed, edges_order_conflicts, late_edges_suffice, listed_edges_are_all,
    no_edge_follows, places_stand_for_counts, points_stand_by_counts, some_hart_goes_on,
    tests_decide,
};
use run_laws::turns_are_lawful;
use run_model::{each_turn_fits, each_turn_moves_on, guarded_asks_fit, others_stay_fit};
use std::marker::Brand;

/// The Edge records of a stream are those of Netzer's reduction of the run's points: in the order of the
/// points that they lead to, and of those into one point the latest source first. (R. H. B. Netzer,
/// "Optimal tracing and replay for debugging shared-memory parallel programs", 1993.)
#[tactic(auto, using(crate::proofs::Streams::edges_are_netzers))]
pub fn edges_are_netzers()
    ensures { EdgesAreNetzers }
{}

/// The points of a run are in order: turns ascend, and counts along each hart's points.
#[tactic(auto, using(crate::proofs::Whole::of_lists, crate::proofs::Whole::points_in_order))]
pub fn points_are_in_order()
    ensures turns { OfLists HasOrder }
    ensures rows { OfRows HasOrder }
{
    each_turn_moves_on();
    guarded_asks_fit();
    each_turn_fits();
    others_stay_fit();
    tests_decide();
    listed_edges_are_all();
    turns_are_lawful();
}

/// Places represent instructions by hart and count. The edges over places are those of Netzer's rule over
/// all instructions, even those that access nothing.
pub fn edges_are_by_count()
    ensures turns { OfLists HasEdgesByCount }
    ensures rows { OfRows HasEdgesByCount }
{
    each_turn_moves_on();
    guarded_asks_fit();
    each_turn_fits();
    others_stay_fit();
    tests_decide();
    listed_edges_are_all();
    turns_are_lawful();
    places_stand_for_counts();
}

/// The Edges of a stream are the edges of Netzer's rule between instructions by hart and count: two that
/// conflict, without a third one after the earlier and before the later.
pub fn edges_are_those_of_instructions()
    ensures turns { OfLists HasEdgesOfInstructions }
    ensures rows { OfRows HasEdgesOfInstructions }
{
    tests_decide();
    listed_edges_are_all();
    points_are_in_order();
    points_stand_by_counts();
    places_stand_for_counts();
}

/// No Edge of a stream is implied: no chain of program order and the other Edges leads from the
/// instruction that it comes from to the one that it leads to.
pub fn no_edge_is_implied()
    ensures turns { OfLists HasNoImpliedEdge }
    ensures rows { OfRows HasNoImpliedEdge }
{
    tests_decide();
    listed_edges_are_all();
    points_are_in_order();
    points_stand_by_counts();
    no_edge_follows();
}

/// Sets of pairs of instructions, by hart and count, each with a name. No clause can speak of all sets of pairs, and a
/// clause over such a type speaks of all that any type names.
pub trait InstructionPairs {
    ghost use Rattle.std.specs.Prelude.{ℕ};

    /// What names a set.
    ghost Name: { Type 0 };

    /// The pairs of a set.
    ghost has: { Name → ℕ → ℕ → ℕ → ℕ → Type 0 };
}

impl InstructionPairs for Brand {
    ghost use Rattle.std.specs.Prelude.{⊤};

    ghost Name = { ⊤ };

    ghost has = { λ of hart count hart_to count_to. ⊥ };
}

/// The Edges of a stream are the least set that orders the conflicts. Chains of program order and Edges
/// lead from each instruction to each later one that conflicts with it. Each set of pairs that does this
/// too has every Edge.
pub fn edges_are_the_least<P: InstructionPairs>()
    ensures turns { OfLists (HasLeastEdges P.Name P.has) }
    ensures rows { OfRows (HasLeastEdges P.Name P.has) }
{
    tests_decide();
    listed_edges_are_all();
    points_are_in_order();
    points_stand_by_counts();
    edges_order_conflicts();
    edges_are_needed::<Brand>();
}

/// Whatever end of the records is kept, every edge that ends after a point of a kept interval is kept: its
/// Edge comes after the interval's Header. What the log keeps is such an end
/// (`run_laws::kept_records_are_an_end`).
pub fn late_edges_are_kept()
    ensures turns { OfLists KeepsLateEdges }
    ensures rows { OfRows KeepsLateEdges }
{
    each_turn_moves_on();
    guarded_asks_fit();
    each_turn_fits();
    others_stay_fit();
    tests_decide();
    listed_edges_are_all();
    turns_are_lawful();
}

/// Race order, whatever end of the records is kept: a chain of program order and kept Edges leads from
/// each point of a kept interval to each later point that conflicts with it. The chain may lead through
/// points of intervals that were dropped.
#[tactic(auto, using(crate::proofs::Whole::of_lists, crate::proofs::Whole::conflicts_ordered))]
pub fn kept_edges_order_conflicts()
    ensures turns { OfLists OrdersConflicts }
    ensures rows { OfRows OrdersConflicts }
{
    each_turn_moves_on();
    guarded_asks_fit();
    each_turn_fits();
    others_stay_fit();
    tests_decide();
    listed_edges_are_all();
    turns_are_lawful();
    edges_order_conflicts();
}

/// Whatever end of the records is kept, its Edges are those of edges of the run, and no others.
pub fn kept_edges_are_edges()
    ensures turns { OfLists KeepsEdgesAlone }
    ensures rows { OfRows KeepsEdgesAlone }
{
    tests_decide();
    listed_edges_are_all();
}

/// Whatever end of the records is kept, take any order that merges the harts' lists and respects the kept
/// Edges. Points of kept intervals that access a common word, one of them writing it, stand in it in
/// recorded order. So each word's writes stand as recorded, and each of its reads between the same writes.
pub fn allowed_orders_keep_words()
    ensures turns { OfLists KeepsWords }
    ensures rows { OfRows KeepsWords }
{
    each_turn_moves_on();
    guarded_asks_fit();
    each_turn_fits();
    others_stay_fit();
    tests_decide();
    listed_edges_are_all();
    turns_are_lawful();
    late_edges_suffice();
    some_hart_goes_on();
}

/// No order that merges the harts' lists and respects the kept Edges gets stuck. As long as its beginning
/// isn't whole, some hart's next point has the sources of all kept Edges into it before it.
#[tactic(auto, using(crate::proofs::Orders::go_on))]
pub fn beginnings_go_on()
    ensures { BeginningsGoOn }
{
    tests_decide();
    listed_edges_are_all();
    late_edges_suffice();
    some_hart_goes_on();
}

/// The points of an interval that the log can replay are of a kept interval, and so are all later
/// ones of its hart.
#[tactic(auto, using(crate::proofs::Alone::replayed_since))]
pub fn replayed_points_are_since_headers()
    ensures { ReplayedAreSinceHeaders }
{}
