//! Atoms, what a statement writes and deletes, and what a list of them answers to a query.
#![tactic(auto)]

mod answers;
mod atom;
mod column_values;
mod coordinates;
mod log_length;
mod partition_keys;
mod picks;
mod place;
mod query;
mod row;
mod rows_and_paths;
mod shown_rows;
mod winners;

pub use answers::{answer, row_shown};
pub use atom::{Atom, ColumnRef, Mutation};
pub use log_length::length;
pub use picks::picked;
pub use place::Partition;
pub use query::{Datum, LiveRow, Pick, Query};
pub use row::{PathCell, Row, RowColumn};
pub use rows_and_paths::compare_paths;
pub use shown_rows::{is_shown, is_static_shown};
pub use winners::{greater_deletion, greater_live, standing_live};
