//! Tests of the history: each call once, on one line; two clients in threads, through locks.
//! They stand apart since a crate with tests is proved twice.
#![tactic(auto)]

#[cfg(test)]
mod two;
#[cfg(test)]
mod walk;
