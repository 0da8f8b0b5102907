//! What the program prints of a line's reply: values as CQL's constants, rows as lines, table files by their numbers.
#![tactic(auto)]

mod collections;
mod constants;
mod laws;
mod listing;
mod pieces;
mod printing;
mod reply;

pub use laws::status_ascends;
pub use listing::{in_order, listed_of};
pub use printing::render;
pub use reply::{Failure, Listed, Reply, Verdict};
