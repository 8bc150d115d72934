//! The commands that read a log, a file each: what it loads, what it answers by the loaded bytes, and what it prints.
pub mod audit;
pub mod check;
pub mod convert;
pub mod joint;
pub mod list;
pub mod races;
pub mod replay;
pub mod salvage;
pub mod slice;
