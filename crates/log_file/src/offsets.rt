//! The places of a log file's fields, by their names in `docs/FORMAT.md`. Those with a 2 are of version 2 alone.

// Both versions.
pub const VERSION: usize = 8;

pub const HARTS: usize = 12;

pub const INTERVAL: usize = 16;

pub const LIMIT: usize = 20;

pub const LOG_SIZE: usize = 28;

pub const MEMORY: usize = 32;

pub const SETS: usize = 36;

pub const WAYS: usize = 40;

pub const LINE: usize = 44;

// Version 1.
pub const PROGRAM: usize = 48;

pub const DROPPED: usize = 80;

pub const N: usize = 88;

// Version 2.
pub const FORMAT: usize = 48;

pub const SETS2: usize = 52;

pub const WAYS2: usize = 56;

pub const PROGRAM2: usize = 60;

pub const DROPPED2: usize = 92;

pub const N2: usize = 100;

pub const DIGEST2: usize = 104;

// Of a block, from its end back.
pub const BEFORE: usize = 48;

pub const LEFT: usize = 40;

pub const LEN: usize = 36;
