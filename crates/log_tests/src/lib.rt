//! Tests of logs: records, the ring, the order of records, files, and the replay of an interval.
//! They stand in a crate of their own, since a crate with tests is proved twice.
#![tactic(auto)]

#[cfg(test)]
mod files;
#[cfg(test)]
mod first_log;
#[cfg(test)]
mod going_back;
#[cfg(test)]
mod order;
#[cfg(test)]
mod records;
#[cfg(test)]
mod relay;
#[cfg(test)]
mod replaying;
#[cfg(test)]
mod ring;
#[cfg(test)]
mod texts;
