//! What an ALTER TABLE adds.

use cas_types::{Column, List};

/// The columns that an ALTER TABLE adds to a table.
#[derive(Drop)]
pub struct Addition {
    pub table: u16,
    pub columns: List<Column>,
}
