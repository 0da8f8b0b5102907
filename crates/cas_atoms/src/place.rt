//! What the live view is read from: a partition at a moment, and a column of one of its rows.

use crate::atom::Atom;
use cas_bounds::Values;

/// The atoms of a partition, and the moment in seconds at which they are read.
#[derive(Clone, Copy)]
pub struct Partition<'a> {
    pub atoms: &'a [Atom],
    pub now: i64,
}

/// A row by the values of its clustering columns, of which the static row has none, and the number
/// of one of its columns.
#[derive(Clone, Copy)]
pub(crate) struct Place<'a> {
    pub(crate) row: Option<&'a Values>,
    pub(crate) number: u16,
}
