//! The races of small recordings, worked out by hand.
ghost use Rattle.std.specs.Prelude.{◌≡◌, ◌∷◌, [], true, false};
ghost use Rattle.race_laws.specs.Common.{Edge, conflict, edge, recorded, a_relay};
ghost use Rattle.run_laws.specs.Examples.{a_relay_of_intervals};
ghost use Rattle.race_laws.specs.Edges.{edges_in, netzer_records};
ghost use Rattle.race_laws.specs.Examples.{names, headers_in, kept_of_size};

/// A relay of three harts: the first and the last point conflict, and the two edges by way of the
/// middle hart order them.
#[tactic(auto, using(crate::proofs::Worked::relay_names, crate::proofs::Worked::relay_edges, crate::proofs::Worked::relay_conflict, crate::proofs::Worked::relay_no_edge))]
pub fn a_relay_has_two_edges()
    ensures points { names a_relay ≡ (0, 4) ∷ (1, 3) ∷ (1, 4) ∷ (2, 4) ∷ (2, 5) ∷ [] }
    ensures edges { netzer_records (recorded a_relay).points ≡ Edge 1 3 0 4 ∷ Edge 2 4 1 4 ∷ [] }
    ensures conflict { conflict (recorded a_relay).points 0 4 ≡ true }
    ensures third { edge (recorded a_relay).points 0 4 ≡ false }
{}

/// With shorter intervals, and a log that has dropped the middle hart's interval with count 3, the
/// Edges that go through it are kept.
#[tactic(auto, using(crate::proofs::Worked::kept_headers, crate::proofs::Worked::kept_edges))]
pub fn edges_through_a_dropped_interval_are_kept()
    ensures headers { headers_in (kept_of_size 581 a_relay_of_intervals) ≡ (0, 1, 4) ∷ (2, 1, 4) ∷ (1, 1, 4) ∷ [] }
    ensures edges { edges_in (kept_of_size 581 a_relay_of_intervals) ≡ Edge 1 3 0 4 ∷ Edge 2 4 1 4 ∷ [] }
{}
