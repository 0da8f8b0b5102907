//! What the rows of a table are made of, as bytes: how deletions, what an `INSERT` leaves of a row,
//! cells, the places of rows and cuts are spelled, a reader of each, which is told the table's
//! columns, and a writer.
#![tactic(auto)]

mod bounds;
mod cells;
mod columns;
mod deletions;
mod keys;
mod laws;
mod lives;
mod times;

pub use bounds::{put_clustering, put_cut, read_clustering, read_cut, values_len};
pub use cells::{put_cell, read_cell};
pub use columns::{Wanted, read_column, read_path};
pub use deletions::{put_deletion, read_deletion};
pub use keys::read_key;
pub use laws::{bounds_are_exact, cells_are_exact, columns_are_exact};
pub use lives::{put_live, read_live};
pub use times::read_timestamp;
