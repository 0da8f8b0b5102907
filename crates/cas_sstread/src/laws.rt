//! Which files are loaded.

ghost use Rattle.cas_sstread.specs.Laws.{LoadingIsExact, TablesLoad, PartitionsAreFound};

/// Just those files are loaded that are header, partitions, index, filter, what is told and footer,
/// one behind another, as they must be.
pub fn loading_is_exact()
    ensures { LoadingIsExact }
{}

/// The file of contents that a table may have is loaded, with the index and the filter of these.
pub fn tables_load()
    ensures { TablesLoad }
{}

/// What is found of a key in the index of contents is what these have: the partition stands in their
/// file where the index tells, up to the next one; and where none is found they have none.
pub fn partitions_are_found()
    ensures { PartitionsAreFound }
{}
