//! Writes memtables of one table and shard to a table file, key by key; and laws of which streams fit a table file.
#![tactic(auto)]

mod flush;
mod key;
mod laws;

pub use flush::flush_parts;
pub use laws::{merges_fit, merges_keep_cuts, silent_are_ranges, what_is_allowed_fits};
