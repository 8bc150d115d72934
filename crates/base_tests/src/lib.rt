//! Tests of the lowest layers that lines of a script can't say: the outside, races and times.
//! They stand in a crate of their own, since a crate with tests is proved twice.
#![tactic(auto)]

#[cfg(test)]
mod outside;
#[cfg(test)]
mod races;
#[cfg(test)]
mod times;
