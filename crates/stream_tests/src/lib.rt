//! Tests of the streams of a partition: their merge, what they show, and their purge. They stand
//! apart since a crate with tests is proved twice.
#![tactic(auto)]

#[cfg(test)]
mod fragments;
#[cfg(test)]
mod lives;
#[cfg(test)]
mod streams;
