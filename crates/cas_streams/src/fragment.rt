//! The pieces of a partition.

use cas_atoms::{Row, RowColumn};
use cas_bounds::Cut;
use cas_cell::Deletion;
use cas_types::List;

/// A piece of a partition, as streams and tables hold it.
#[derive(Drop)]
pub enum Fragment {
    /// The columns of the static row. It comes first, or not at all.
    Static(List<RowColumn>),
    Row(Row),
    /// From the cut on this range deletion is in force, or none, until the next marker.
    Marker(Cut, Option<Deletion>),
}
