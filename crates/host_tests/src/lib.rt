//! What no clause says of the outside: what real files hold, and that each adapter's calls succeed.
//! The tests stand in a crate of their own, since a crate with tests is proved twice.
#![tactic(auto)]

#[cfg(test)]
mod calls;
#[cfg(test)]
mod hosts;
#[cfg(test)]
mod saving;
#[cfg(test)]
mod streams;
#[cfg(test)]
mod words;
