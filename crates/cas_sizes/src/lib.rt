//! How many bytes a table file takes of what was written: never much more than the records of the mutations have.
#![tactic(auto)]

mod laws;

pub use laws::{little_has_room, partitions_are_few, streams_are_small};
