//! Small runs, each with its edges worked out by hand.
#![tactic(auto, unfolding(crate::specs::Tests::at_places, crate::specs::Tests::leads, crate::specs::Tests::any_below, crate::specs::Tests::before, crate::specs::Tests::edge, crate::specs::Tests::greatest_first, crate::specs::Tests::edges_into, crate::specs::Tests::edges_of_first, crate::specs::Examples::neighbours, crate::specs::Examples::two_loads, crate::specs::Examples::failed_conditional, crate::specs::Examples::filled_word, crate::specs::Examples::relay, crate::specs::Examples::two_readers, crate::specs::Examples::two_words))]

ghost use Rattle.std.specs.Prelude.{◌≡◌, ◌∷◌, []};
ghost use Rattle.race_log.specs.Tests.{all_edges};
ghost use Rattle.race_log.specs.Examples.{neighbours, failed_conditional, filled_word, relay, two_loads, two_readers, two_words};

/// Accesses of two words have no edge, though the words be neighbours.
pub fn neighbours_do_not_conflict()
    ensures { all_edges neighbours ≡ [] }
{}

/// Two loads of a word have no edge.
pub fn loads_do_not_conflict()
    ensures { all_edges two_loads ≡ [] }
{}

/// A store has an edge from another hart's reservation of its word, and a conditional store that fails has none.
pub fn failed_conditional_has_no_edge()
    ensures { all_edges failed_conditional ≡ ((1, 2), (0, 2)) ∷ [] }
{}

/// A call that fills a word writes it: it has an edge from a load before it, and a load after it has one from it.
pub fn filled_word_is_written()
    ensures { all_edges filled_word ≡ ((1, 6), (0, 2)) ∷ ((0, 3), (1, 6)) ∷ [] }
{}

/// A conflict of harts 0 and 2 has no edge, since edges by way of hart 1 order it already.
pub fn relay_implies_a_conflict()
    ensures { all_edges relay ≡ ((1, 3), (0, 4)) ∷ ((2, 4), (1, 4)) ∷ [] }
{}

/// A store has an edge from each of two harts' loads, the later load's first.
pub fn store_follows_two_readers()
    ensures { all_edges two_readers ≡ ((2, 0), (1, 0)) ∷ ((2, 0), (0, 0)) ∷ [] }
{}

/// An edge from a hart's earlier store leaves its later store unordered, which therefore has an edge of its own.
pub fn later_store_has_its_edge()
    ensures { all_edges two_words ≡ ((1, 0), (0, 0)) ∷ ((1, 1), (0, 1)) ∷ [] }
{}
