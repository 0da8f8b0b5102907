//! What holds of the slices of all statements.

ghost use Rattle.cas_where.specs.WhereLaws.{SliceLaw};

/// Where a WHERE may be one of a slice, a row lies in the slice exactly where each relation on a
/// clustering column holds of the row.
pub fn slice_law()
    ensures { SliceLaw }
{}
