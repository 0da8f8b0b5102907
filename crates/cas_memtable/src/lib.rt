//! A memtable: the partitions of one table that were written since the last flush; and all that a table
//! has in memory in a shard: the memtable that is written to, and those that are frozen until they stand
//! in a file.
#![tactic(auto)]

mod memtable;
mod parts;
mod scan;
mod sources;

pub use memtable::{Held, MemPart};
pub use parts::Parts;
pub use scan::{next_key, sources_of};
