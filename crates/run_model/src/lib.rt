//! What a recording is: its runs, rows, intervals and log, in definitions that compute (`specs/`), and the machine that is
//! proved against them (`src/`). The replays and the laws cite the definitions alone; the bus runs this code too.
//!
//! Files that no `pub` below names may change with this crate's proofs alone, but for `records` and `taking`, which have
//! methods of exported types.
#![tactic(auto)]

mod alone;
mod caches;
mod error;
mod examples;
mod first;
mod guarded_examples;
mod hart;
mod harts;
mod laws;
mod live;
mod log;
mod machine;
mod plain;
mod quick;
mod race;
mod records;
mod span;
mod start;
mod taking;
mod trace;
mod turn_end;
mod turning;

pub use caches::{Caches, loading_accesses_touch_their_words};
pub use error::TurnError;
pub use examples::{
    a_byte_store_is_logged, a_call_comes_before_the_length, a_conditional_store_succeeds,
    a_fault_is_recorded, a_filled_word_is_logged_again, a_line_put_out_is_logged_again,
    a_relay_needs_no_third_edge, a_skipped_load_is_counted, a_store_drops_the_line,
    a_store_ends_the_reservation, an_exit_is_recorded, full_intervals_end, rows_are_told,
    the_first_load_is_logged, the_limit_comes_before_the_length,
};
pub use first::start_state;
pub use guarded_examples::{
    a_late_fault_is_kept, a_load_is_guarded, a_load_is_not_guarded_in_format_1,
    a_number_can_pass_twice_the_count, a_turn_ends_two_intervals, edges_move_the_guard,
    the_rows_of_a_guarded_turn_are_parted,
};
pub use hart::{Hart, skipped_after};
pub use laws::{
    each_turn_fits, each_turn_moves_on, format_1_is_unguarded, guarded_asks_fit, others_stay_fit,
    records_decide_nothing,
};
pub use log::Log;
pub use machine::{Machine, Streams};
pub use plain::Plain;
pub use span::{Span, loading};
pub use start::Start;
pub use trace::Trace;
pub use turn_end::TurnEnd;
pub use turning::Recorded;
