//! The race log: which conflicts between harts are recorded so that all others follow, by Netzer's transitive reduction
//! (R. H. B. Netzer, "Optimal tracing and replay for debugging shared-memory parallel programs", 1993).
//!
//! A point is an instruction that a hart has done, named by its hart and by how many instructions that hart had done
//! before it. Two points of different harts conflict if they access a common word and one of them writes it. A point is
//! before another if a chain of program order and conflicts leads from the one to the other. An edge is recorded for two
//! conflicting points if and only if no third point is after the one and before the other.
//!
//! `Times` are vector times: for each hart, how many of its points come before a point of the run.
//! `Shadow` takes in the accesses of a run one by one and answers the edges into each. The laws say what the edges are
//! good for; each is the contract of a function that does nothing. Small runs with their edges worked out are contracts
//! too.
//!
//! Files that no `pub` below names may change with this crate's proofs alone.
#![tactic(auto)]

mod edges;
mod epochs;
mod examples;
mod laws;
mod mode;
mod page;
mod search;
mod shadow;
mod slot;
mod sweep;
mod sweeping;
mod words;

pub use edges::Edges;
pub use examples::{
    failed_conditional_has_no_edge, filled_word_is_written, later_store_has_its_edge,
    loads_do_not_conflict, neighbours_do_not_conflict, relay_implies_a_conflict,
    store_follows_two_readers,
};
pub use laws::{
    PairSets, edges_are_needed, edges_order_conflicts, known_accesses_may_go, late_edges_suffice,
    listed_edges_are_all, memory_stays_small, merges_keep_conflicts, no_edge_follows, notes_decide,
    places_stand_for_counts, points_stand_by_counts, some_hart_goes_on, tests_decide,
    times_cover_instructions,
};
pub use mode::Mode;
pub use shadow::Shadow;
