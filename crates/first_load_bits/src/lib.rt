//! First-load bits (BugNet, ISCA 2005): which words a hart still knows.
//!
//! A recorder logs the value of a load only if the hart's cache doesn't know the word. The cache has a number of sets. The
//! line of an address belongs to the set that is the line's number modulo that of sets. Each set lists at most `ways`
//! lines, the latest first, with one bit for each word. There may be a second level of such sets below, with a number of
//! sets and ways of its own. Three things happen to a cache.
//! - An access (`touch`) of a word takes its line out of the second level and puts it first in its set's list. The line
//!   keeps the bits that either level had of it, and the word's bit is set. If there are too many, the last line *falls*:
//!   it is evicted, with its bits, to the beginning of its second set. If that has too many, its last line is lost.
//! - A *drop* of a line, at a write of another hart, takes the line out of both levels.
//! - A *clear*, at the start of an interval, clears all bits and keeps the lines.
//!
//! A word is warm if its bit is set. The history of the cache alone says what that means: since some access of the word
//! after the last clear, its line was held, listed or below, at every moment. `laws` has the laws between the two, and a
//! test of the history that computes.
//!
//! A cache keeps no lists. Each set has its ways, all side by side in one array. A way has a line, its bits, the number of
//! the access that put it there, and that of the clear before. These numbers determine what is listed, and a clear is one
//! number more.
#![tactic(auto)]

pub mod cache;
pub mod laws;
pub mod power;
pub mod warm;
pub mod way;

pub use cache::{Cache, LinePlace};
pub use warm::Warm;
pub use way::Way;
