//! What the recorded edges suffice for: the laws by which a joint replay keeps the recording's order of conflicts.
ghost use Rattle.std.specs.Prelude.{◌<◌, ◌↔◌, ℕ, List, IsTrue, Contains, AllPairs};
ghost use Rattle.race_log.specs.Points.{Point, Writes, IsConflict};
ghost use Rattle.race_log.specs.Netzer.{ProgramOrder, Conflict, Before, IsEdge};
ghost use Rattle.race_log.specs.ByCount.{StandByCounts};
ghost use Rattle.race_log.specs.Noted.{NotesDecide};
ghost use Rattle.race_log.specs.Represents.{EpochsStayFew, PagesStaySmall};
ghost use Rattle.race_log.specs.Tests.{writes_word, is_conflict, program_order, conflict, before, edge, edges_into};
ghost use Rattle.race_log.specs.Laws.{NoEdgeFollows, EdgesAreNeeded, EdgesOrderConflicts, LateEdgesOrderConflicts, MergesKeepConflicts, MergesKeepWords};
ghost use Rattle.race_log.specs.Laws.{LateEdgesKeepConflicts, LateEdgesKeepWords, SomeHartGoesOn, NextPointsRespect, KnownAccessesMayGo};
ghost use Rattle.race_log.specs.Laws.{ChainsStandForCounts, EdgesStandForCounts, TimesCoverInstructions};

use std::marker::Brand;

/// The tests say what the definitions say.
pub fn tests_decide()
    ensures writes { (word : ℕ) (p : Point) → IsTrue (writes_word word p) ↔ Writes word p }
    ensures points { (p q : Point) → IsTrue (is_conflict p q) ↔ IsConflict p q }
    ensures program { (run : List Point) (m n : ℕ) → IsTrue (program_order run m n) ↔ ProgramOrder run m n }
    ensures conflict { (run : List Point) (m n : ℕ) → IsTrue (conflict run m n) ↔ Conflict run m n }
    ensures before { (run : List Point) (m n : ℕ) → IsTrue (before run m n) ↔ Before run m n }
    ensures edge { (run : List Point) (m n : ℕ) → IsTrue (edge run m n) ↔ IsEdge run m n }
{}

/// The list of the places that the edges into a place come from has each of them, and no other place, and the latest
/// comes first.
pub fn listed_edges_are_all()
    ensures all { (run : List Point) (m n : ℕ) → Contains (edges_into run n) m ↔ IsEdge run m n }
    ensures falling { (run : List Point) (n : ℕ) → AllPairs (λ a b. b < a) (edges_into run n) }
{}

/// No edge follows from program order and the other edges.
#[tactic(auto, using(crate::proofs::EdgeLaws::edge_stands_alone))]
pub fn no_edge_follows()
    ensures { NoEdgeFollows }
{}

/// Sets of pairs of places of a run, each with a name. No clause can speak of all sets of pairs, and a clause over such
/// a type speaks of all that any type names.
pub trait PairSets {
    ghost use Rattle.std.specs.Prelude.{ℕ};

    /// What names a set.
    ghost Name: { Type 0 };

    /// The pairs of a set.
    ghost has: { Name → ℕ → ℕ → Type 0 };
}

impl PairSets for Brand {
    ghost use Rattle.std.specs.Prelude.{⊤};

    ghost Name = { ⊤ };

    ghost has = { λ of m n. ⊥ };
}

/// Every set of conflicting pairs, each in recorded order, whose chains with program order order all conflicts
/// has each edge.
pub fn edges_are_needed<P: PairSets>()
    ensures { EdgesAreNeeded P.Name P.has }
{}

/// A chain of program order and edges leads from each point to each later one that conflicts with it, and already
/// the edges that end after the earlier of the two suffice for it.
#[tactic(auto, using(crate::proofs::EdgeLaws::edges_lead, crate::proofs::MergeLaws::late_edges_lead))]
pub fn edges_order_conflicts()
    ensures all { EdgesOrderConflicts }
    ensures late { LateEdgesOrderConflicts }
{}

/// In every merge of the harts' lists that respects the edges, conflicting points stand in recorded order. So each
/// word's writes stand as recorded, and each of its reads between the same writes.
pub fn merges_keep_conflicts()
    ensures conflicts { MergesKeepConflicts }
    ensures words { MergesKeepWords }
{}

/// The recorded edges include all that end after some place. In every merge of the harts' lists of kept points that
/// respects recorded edges between them, conflicting kept points from that place on are in recorded order.
///
/// Here the recorded edges are those of a log's suffix, and the kept points are those of the suffix and the edges'
/// sources. A chain that orders two kept points may lead through points that aren't kept.
pub fn late_edges_suffice()
    ensures conflicts { LateEdgesKeepConflicts }
    ensures words { LateEdgesKeepWords }
{}

/// If a merge of prefixes of the harts' lists of kept points isn't whole, some hart can continue: the merge has all
/// sources of recorded edges into its next point. A merge that respects the edges still does with such a point at its
/// end.
pub fn some_hart_goes_on()
    ensures some { SomeHartGoesOn }
    ensures next { NextPointsRespect }
{}

/// In a run whose points are in order, a hart's points ascend by their counts, and all points by their turns.
pub fn points_stand_by_counts()
    ensures { StandByCounts }
{}

/// Chains and edges over places are those over instructions by hart and count. There, instructions between a hart's points,
/// which access nothing, count as third ones too.
pub fn places_stand_for_counts()
    ensures before { ChainsStandForCounts }
    ensures edge { EdgesStandForCounts }
{}

/// The counts that hold a place's point and those before it cover the instructions that are its point's or before it.
#[tactic(auto, using(crate::proofs::CountLaws::times_of))]
pub fn times_cover_instructions()
    ensures { TimesCoverInstructions }
{}

/// Kept accesses that each live hart knows of may go, and harts may end: what is left still suffices for the live ones.
#[tactic(auto, using(crate::proofs::KeptLemmas::fewer_suffice))]
pub fn known_accesses_may_go()
    ensures { KnownAccessesMayGo }
{}

/// What a shadow notes determines which runs it represents.
pub fn notes_decide()
    ensures { NotesDecide }
{}

/// How much a shadow holds at any time. It has at most 1024 epochs, each with a vector clock, and 2 more for each slot and
/// 8 for each page. A page has at most the slots of 64 words. [`Shadow::reserve`] says which pages are made.
#[tactic(auto, using(crate::proofs::SizeLemmas::small))]
pub fn memory_stays_small()
    ensures epochs { EpochsStayFew }
    ensures pages { PagesStaySmall }
{}
