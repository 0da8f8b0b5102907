//! A change of a column, as it stands in a statement.

use cql_parse::{Assigned, Constant, Term};

/// What a statement does to one column.
#[derive(Clone, Copy)]
pub enum RowChange<'a> {
    /// An INSERT gives it the term.
    Insert(&'a Term),
    /// An UPDATE assigns it this.
    Assign(&'a Assigned),
    /// A DELETE deletes it, or its entry at the key.
    Delete(&'a Option<Constant>),
}
