//! What a slice of a partition in memory shows.

ghost use Rattle.cas_partition.specs.Slices.{SlicesShow};

/// The rows of a slice, put together spot by spot, merged with the markers of the range deletions
/// there: in order, well formed, and the same in the slice as the partition.
pub fn slices_show()
    ensures { SlicesShow }
{}
