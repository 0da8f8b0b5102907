//! What a table file holds of a partition, as bytes: how columns, rows, markers and fragments are
//! spelled, a reader of each, which is told the table's columns, and a writer.
#![tactic(auto)]

mod blocks;
mod columns;
mod fragments;
mod heads;
mod laws;
mod lengths;
mod writing;

pub use blocks::{BLOCK_LEAST, Block, read_block};
pub use columns::read_columns;
pub use fragments::{read_fragment, read_row};
pub use heads::{Head, Version, put_head, read_head};
pub use laws::{
    blocks_are_exact, blocks_are_partitions, columns_are_exact, fragments_are_exact,
    partitions_are_exact, wholes_are_streams,
};
pub use writing::{put_columns, put_fragment};
