//! A row's atoms put together: what streams and tables hold of it.

use crate::atom::ColumnRef;
use cas_bounds::Clustering;
use cas_cell::{Cell, Deletion, Liveness};
use cas_types::{Bytes, List};

/// A cell at its path.
#[derive(Drop)]
pub struct PathCell {
    pub path: Bytes,
    pub cell: Cell,
}

/// What there is of one column of a row.
#[derive(Drop)]
pub struct RowColumn {
    pub column: ColumnRef,
    pub deletion: Option<Deletion>,
    pub cells: List<PathCell>,
}

/// What there is of one row.
#[derive(Drop)]
pub struct Row {
    pub clustering: Clustering,
    pub deletion: Option<Deletion>,
    pub live: Option<Liveness>,
    pub columns: List<RowColumn>,
}
