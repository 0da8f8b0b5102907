//! The table files that a table has in a shard at one moment, each with what is told of it.
#![tactic(auto)]

mod view;

pub use view::{OpenFile, View, may_hold};
