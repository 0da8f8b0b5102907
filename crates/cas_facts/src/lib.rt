//! The facts of a table's atoms: the least and the greatest timestamp, and when the last of them
//! died, if all of them do; gathered while partitions are written, fragment by fragment.
#![tactic(auto)]

mod facts;
mod gathering;
mod laws;

pub use facts::{Facts, Tally};
pub use laws::{facts_are_one, streams_tell_their_facts};
