//! In which order the records of a log come, and what a log says whose records keep it.
#![tactic(auto)]

mod examples;
pub mod kept_log;
pub mod laws;
pub mod rule;
pub mod view;
pub mod walk;

pub use examples::{
    a_hart_has_an_end, a_header_begins_an_interval, a_header_goes_on, a_load_needs_an_interval,
    a_record_needs_its_harts, an_edge_comes_from_an_instruction_that_is_done, an_end_has_its_count,
    an_exit_is_in_order,
};
pub use kept_log::KeptLog;
pub use rule::OrderRule;
pub use view::{HartView, OrderLimits, Phase};
pub use walk::OrderBreak;
