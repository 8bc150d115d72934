//! Vector times: for each hart, how many of its points are known to be before a point (Fidge 1988, Mattern 1989).
//!
//! A recording keeps one for each hart and one for each access that a word still names. By them the race log sees which
//! order between harts is already implied, so that it isn't logged again.
#![tactic(auto)]

mod times;

pub use times::Times;
