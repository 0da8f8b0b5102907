//! What is told of each table file: its number and length, its keys, its timestamps, its level; how
//! that is spelled as bytes; and the plans that compactions follow.
#![tactic(auto)]

mod fields;
mod info;
mod laws;

pub use fields::{put_info, read_info};
pub use info::{
    FILE_LIMIT, FILE_NUMBER_LIMIT, LAST_LEVEL, PARTITION_LIMIT, Plan, TableInfo, overlaps,
};
pub use laws::{infos_are_exact, overlap_is_a_key};
