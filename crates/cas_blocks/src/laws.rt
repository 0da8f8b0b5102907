//! What holds of slices that are read from the middle of a partition.

ghost use Rattle.cas_blocks.specs.Laws.{CutsAreOne, TablesAreRead};

/// A stream cut fragment by fragment is the stream cut to the slice.
pub fn cuts_are_one()
    ensures { CutsAreOne }
{}

/// Of a table's file each slice of a partition is read from the block on that the index finds.
pub fn tables_are_read()
    ensures { TablesAreRead }
{}
