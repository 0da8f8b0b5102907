//! Tests of the partitions in memory. They stand apart since a crate with tests is proved twice.
#![tactic(auto)]

#[cfg(test)]
mod memtables;
#[cfg(test)]
mod writes;
