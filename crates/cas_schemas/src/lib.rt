//! What a CREATE TABLE tells of a table, as bytes: how columns, options and schemas are spelled, a
//! reader of each, which is told what is defined already, and a writer.
#![tactic(auto)]

mod codes;
mod columns;
mod laws;
mod names;
mod options;
mod ranges;
mod schemas;
mod writing;

pub use columns::read_columns;
pub use laws::schemas_are_exact;
pub use names::NAME_LIMIT;
pub use ranges::Range;
pub use schemas::{TABLE_LIMIT, read_schema};
pub use writing::{put_columns, put_schema};
