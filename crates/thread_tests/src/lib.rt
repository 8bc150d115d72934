//! Tests of harts in threads. They stand in a crate of their own, since a crate with tests is proved twice.
#![tactic(auto)]

#[cfg(test)]
mod counting;
#[cfg(test)]
mod ports;
#[cfg(test)]
mod threads;
