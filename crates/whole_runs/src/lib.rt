//! Whole runs: on the caller's thread, by a list of turns or by a number that chooses them; or each hart in
//! a thread of its own.
#![tactic(auto)]

mod chooser;
mod choosers;
mod choosing;
mod drawing;
mod examples;
mod hart_place;
mod laws;
mod listed;
mod listed_bus;
mod listed_end;
mod listed_threads;
mod listed_worker;
mod runs;
mod turn_port;
mod turns;

pub use examples::{a_list_is_followed, a_sleeper_is_drawn, bursts_are_drawn};
pub use hart_place::HartPlace;
pub use laws::{
    rows_name_their_harts, scheduled_lists_end, seeded_lists_end, whole_lists_are_followed,
    whole_runs_have_no_error,
};
pub use listed::Listed;
pub use listed_bus::{Beginning, ListedBus};
pub use listed_threads::run_threads_listed;
pub use listed_worker::{ListedPort, work_listed};
pub use runs::{run_listed, run_scheduled, run_seeded, run_turns};
pub use turn_port::{MemoryPort, TurnPort, drive};
pub use turns::{close, finish};
