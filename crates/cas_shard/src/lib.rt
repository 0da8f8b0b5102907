//! One shard: what it has stored of each table, what a write and a SELECT do in it, and its history: what is entered into
//! it, and what of it a SELECT reads.
#![tactic(auto)]

mod answers;
mod entry;
mod first;
mod laws;
mod rows;
mod shard;
mod stores;

pub use answers::{Look, TakeFault};
pub use entry::{Entry, ShardOpening};
pub use first::append_read;
pub use laws::all_stand_up_to_the_last;
pub use shard::Shard;
