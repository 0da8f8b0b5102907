//! A whole table file that is checked: its partitions block by block, and index, filter and info against them.
#![tactic(auto)]

mod blocks;
mod bodies;
mod faults;
mod fields;
mod heads;
mod laws;
mod partitions;
mod rest;
mod whole;

pub use laws::{checking_is_exact, there_are_facts};
pub use whole::check;
