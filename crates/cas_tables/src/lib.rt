//! A table file as a whole: its head, its partitions, and what stands behind them.
#![tactic(auto)]

mod header;
mod laws;

pub use header::{HEADER_LENGTH, Header, LAST_SHARD, put_header, read_header, read_header_of};
pub use laws::{headers_are_exact, length_is_told, parts_fit, places_are_right, tables_are_one};
