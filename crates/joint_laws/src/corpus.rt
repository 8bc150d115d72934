//! Small recordings, joined by the definition.
ghost use Rattle.std.specs.Prelude.{◌≡◌};
ghost use Rattle.run_model.specs.Examples.{an_exit, two_loads_of_a_word, a_skipped_load, a_byte_store, a_line_put_out, a_conditional_store, one_a_time, a_call_at_full_length, a_fault, a_limit, a_line_lost, a_reservation_lost, a_filled_word, a_relay};
ghost use Rattle.joint_laws.specs.Corpus.{joined, text_of_an_exit, text_of_two_loads_of_a_word, text_of_a_skipped_load, text_of_a_byte_store, text_of_a_line_put_out, text_of_a_conditional_store, text_of_one_a_time, text_of_a_call_at_full_length, text_of_a_fault, text_of_a_limit, text_of_a_line_lost, text_of_a_reservation_lost, text_of_a_filled_word, text_of_a_relay};

/// What a joint replay of each small recording of one hart prints: its rows, the Ends of its intervals and
/// the words that it told.
#[tactic(auto, using(crate::proofs::Texts::joined_an_exit, crate::proofs::Texts::joined_two_loads_of_a_word, crate::proofs::Texts::joined_a_skipped_load, crate::proofs::Texts::joined_a_byte_store, crate::proofs::Texts::joined_a_line_put_out, crate::proofs::Texts::joined_a_conditional_store, crate::proofs::Texts::joined_one_a_time, crate::proofs::Texts::joined_a_call_at_full_length, crate::proofs::Texts::joined_a_fault, crate::proofs::Texts::joined_a_limit))]
pub fn recordings_of_one_hart_are_joined()
    ensures an_exit { joined an_exit ≡ text_of_an_exit }
    ensures two_loads_of_a_word { joined two_loads_of_a_word ≡ text_of_two_loads_of_a_word }
    ensures a_skipped_load { joined a_skipped_load ≡ text_of_a_skipped_load }
    ensures a_byte_store { joined a_byte_store ≡ text_of_a_byte_store }
    ensures a_line_put_out { joined a_line_put_out ≡ text_of_a_line_put_out }
    ensures a_conditional_store { joined a_conditional_store ≡ text_of_a_conditional_store }
    ensures one_a_time { joined one_a_time ≡ text_of_one_a_time }
    ensures a_call_at_full_length { joined a_call_at_full_length ≡ text_of_a_call_at_full_length }
    ensures a_fault { joined a_fault ≡ text_of_a_fault }
    ensures a_limit { joined a_limit ≡ text_of_a_limit }
{}

/// What a joint replay of each small recording of several harts prints: the lowest ready hart goes first.
#[tactic(auto, using(crate::proofs::Texts::joined_a_line_lost, crate::proofs::Texts::joined_a_reservation_lost, crate::proofs::Texts::joined_a_filled_word, crate::proofs::Texts::joined_a_relay))]
pub fn recordings_of_several_harts_are_joined()
    ensures a_line_lost { joined a_line_lost ≡ text_of_a_line_lost }
    ensures a_reservation_lost { joined a_reservation_lost ≡ text_of_a_reservation_lost }
    ensures a_filled_word { joined a_filled_word ≡ text_of_a_filled_word }
    ensures a_relay { joined a_relay ≡ text_of_a_relay }
{}
