//! A table file that is read: its index, its filter and what is told of it are in memory, its partitions stay in the file.
#![tactic(auto)]

mod fault;
mod fields;
mod laws;
mod loading;
mod parts;
mod searching;
mod table;
mod told;

pub use fault::TableFault;
pub use laws::{loading_is_exact, partitions_are_found, tables_load};
pub use table::Table;
