//! The commands that a log isn't enough for: `record` and `demo` make one, and `debug` reads commands meanwhile.
pub mod debug;
pub mod demo;
pub mod record;
