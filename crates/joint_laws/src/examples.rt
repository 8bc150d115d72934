//! All allowed orders of small recordings.
ghost use Rattle.std.specs.Prelude.{◌≡◌, ◌∷◌, [], Some, length, replicate};
ghost use Rattle.run_model.specs.Examples.{is_whole};
ghost use Rattle.joint_laws.specs.Examples.{orders_from, merges, allowed_of, words_after, a_short_relay, late_relay, relay_orders, a_spoiled_store, late_store, store_orders};

/// A relay whose first intervals are dropped. Of the 210 merges of the harts' steps eighteen are
/// allowed. In each of them hart 1 passes the point at which it loaded, after hart 0's store and before
/// its own; all end with the same words.
pub fn a_relay_has_eighteen_orders()
    ensures whole { is_whole a_short_relay }
    ensures orders { orders_from 7 late_relay ≡ relay_orders }
    ensures merges { length (merges 7 (2 ∷ 3 ∷ 2 ∷ [])) ≡ 210 }
    ensures others { allowed_of late_relay (merges 7 (2 ∷ 3 ∷ 2 ∷ [])) ≡ relay_orders }
    ensures words { words_after late_relay relay_orders ≡ replicate 18 (Some ((0x20000, 3) ∷ (0x20004, 3) ∷ [])) }
{}

/// A conditional store that a store spoils. Of the twenty merges of the harts' steps those ten are allowed
/// in which the reservation comes before the store. The failed conditional store may come anywhere.
#[tactic(auto, using(crate::proofs::Worked::store_whole, crate::proofs::Worked::store_is, crate::proofs::Worked::store_others, crate::proofs::Worked::store_words))]
pub fn a_spoiled_store_has_ten_orders()
    ensures whole { is_whole a_spoiled_store }
    ensures orders { orders_from 6 late_store ≡ store_orders }
    ensures others { allowed_of late_store (merges 6 (3 ∷ 3 ∷ [])) ≡ store_orders }
    ensures words { words_after late_store store_orders ≡ replicate 10 (Some ((0x20000, 2) ∷ [])) }
{}
