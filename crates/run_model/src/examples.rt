//! Small recordings, worked out by hand.
#![tactic(auto, unfolding(crate::specs::Turn::serve, race_log::specs::Tests::at_places, race_log::specs::Tests::leads, race_log::specs::Tests::any_below, race_log::specs::Tests::before, race_log::specs::Tests::edge, race_log::specs::Tests::greatest_first, race_log::specs::Tests::edges_into))]

ghost use Rattle.std.specs.Prelude.{◌≡◌, ◌∷◌, [], map};
ghost use Rattle.run_model.specs.Common.{tag_of, FirstLoad, ScOk, ScFailed, Edge};
ghost use Rattle.run_model.specs.Examples.{recorded, is_whole, marks, first_header, end, an_exit, two_loads_of_a_word, a_skipped_load, a_byte_store, a_line_put_out, a_conditional_store, one_a_time};
ghost use Rattle.run_model.specs.Examples.{a_call_at_full_length, a_fault, a_limit, a_line_lost, a_reservation_lost, a_filled_word, header_after_the_call, a_relay};
ghost use Rattle.run_model.specs.Examples.{rows_of_an_exit, rows, row_of_a_fault, records_of_a_filled_word, records_of_a_relay};

/// A hart's exit: its interval, without a first load.
pub fn an_exit_is_recorded()
    ensures stream { (recorded an_exit).stream ≡ first_header an_exit 0 ∷ end 0 3 3 5 ∷ [] }
    ensures whole { is_whole an_exit }
{}

/// Of two loads of a word the first is logged.
pub fn the_first_load_is_logged()
    ensures stream { (recorded two_loads_of_a_word).stream ≡ first_header two_loads_of_a_word 0 ∷ FirstLoad 0 0 0 ∷ end 0 5 3 0 ∷ [] }
    ensures whole { is_whole two_loads_of_a_word }
{}

/// A first load is logged with the number of loading accesses that were skipped before it.
pub fn a_skipped_load_is_counted()
    ensures stream { (recorded a_skipped_load).stream ≡ first_header a_skipped_load 0 ∷ FirstLoad 0 0 0 ∷ FirstLoad 0 1 0 ∷ end 0 6 3 0 ∷ [] }
    ensures whole { is_whole a_skipped_load }
{}

/// A store of a byte to a word that isn't warm is logged, since it keeps the rest of the word.
pub fn a_byte_store_is_logged()
    ensures stream { (recorded a_byte_store).stream ≡ first_header a_byte_store 0 ∷ FirstLoad 0 0 0 ∷ end 0 5 3 0 ∷ [] }
    ensures whole { is_whole a_byte_store }
{}

/// A word is logged again once another line has put its own out of the cache.
pub fn a_line_put_out_is_logged_again()
    ensures stream { (recorded a_line_put_out).stream ≡ first_header a_line_put_out 0 ∷ FirstLoad 0 0 0 ∷ FirstLoad 0 0 0 ∷ FirstLoad 0 0 0 ∷ end 0 6 3 0 ∷ [] }
    ensures whole { is_whole a_line_put_out }
{}

/// An SC to the reserved word succeeds.
pub fn a_conditional_store_succeeds()
    ensures stream { (recorded a_conditional_store).stream ≡ first_header a_conditional_store 0 ∷ FirstLoad 0 0 0 ∷ ScOk 0 ∷ end 0 5 3 0 ∷ [] }
    ensures whole { is_whole a_conditional_store }
{}

/// A load outside the mapped addresses faults: code 16 plus 5.
pub fn a_fault_is_recorded()
    ensures stream { (recorded a_fault).stream ≡ first_header a_fault 0 ∷ end 0 0 21 0 ∷ [] }
    ensures whole { is_whole a_fault }
{}

/// A store of another hart drops the whole line, so the next load of another word of it is logged.
pub fn a_store_drops_the_line()
    ensures stream { (recorded a_line_lost).stream ≡ first_header a_line_lost 0 ∷ first_header a_line_lost 1 ∷ FirstLoad 0 0 0 ∷ FirstLoad 0 0 0 ∷ end 0 6 3 0 ∷ end 1 5 3 1 ∷ [] }
    ensures whole { is_whole a_line_lost }
{}

/// A store of another hart to the reserved word ends the reservation, and has an edge from the LR.
pub fn a_store_ends_the_reservation()
    ensures stream { (recorded a_reservation_lost).stream ≡ first_header a_reservation_lost 0 ∷ first_header a_reservation_lost 1 ∷ FirstLoad 0 0 0 ∷ Edge 1 2 0 2 ∷ ScFailed 0 ∷ end 0 6 3 0 ∷ end 1 5 3 1 ∷ [] }
    ensures whole { is_whole a_reservation_lost }
{}

/// A read call writes its words: they lose their lines, have edges, and are logged again.
pub fn a_filled_word_is_logged_again()
    ensures stream { (recorded a_filled_word).stream ≡ records_of_a_filled_word }
    ensures whole { is_whole a_filled_word }
{}

/// A conflict that two edges order already has none of its own.
pub fn a_relay_needs_no_third_edge()
    ensures stream { (recorded a_relay).stream ≡ records_of_a_relay }
    ensures whole { is_whole a_relay }
{}

/// With intervals of one instruction each instruction has its own, and the last one ends by the exit.
pub fn full_intervals_end()
    ensures ends { marks (recorded one_a_time).stream ≡ end 0 1 1 0 ∷ end 0 2 1 0 ∷ end 0 3 3 5 ∷ [] }
    ensures tags { map tag_of (recorded one_a_time).stream ≡ 1 ∷ 6 ∷ 1 ∷ 6 ∷ 1 ∷ 6 ∷ [] }
    ensures whole { is_whole one_a_time }
{}

/// A call that fills the interval ends it as a call.
pub fn a_call_comes_before_the_length()
    ensures ends { marks (recorded a_call_at_full_length).stream ≡ end 0 3 2 69632 ∷ end 0 5 3 69632 ∷ [] }
    ensures tags { map tag_of (recorded a_call_at_full_length).stream ≡ 1 ∷ 6 ∷ 1 ∷ 6 ∷ [] }
    ensures whole { is_whole a_call_at_full_length }
{}

/// At the limit a hart ends.
pub fn the_limit_comes_before_the_length()
    ensures ends { marks (recorded a_limit).stream ≡ end 0 4 1 0 ∷ end 0 8 1 0 ∷ end 0 10 7 0 ∷ [] }
    ensures tags { map tag_of (recorded a_limit).stream ≡ 1 ∷ 6 ∷ 1 ∷ 6 ∷ 1 ∷ 6 ∷ [] }
    ensures whole { is_whole a_limit }
{}

/// The rows of an exit, and that of a fault.
pub fn rows_are_told()
    ensures exit { rows an_exit 0 ≡ rows_of_an_exit }
    ensures fault { rows a_fault 0 ≡ row_of_a_fault ∷ [] }
{}
