//! What holds of the sizes of streams, partitions and table files.

ghost use Rattle.cas_sizes.specs.Laws.{LittleHasRoom, PartitionsAreFew, StreamsAreSmall};

/// The rows and markers of a stream take at most five times the bytes that the atoms of which it says no more take in the log.
pub fn streams_are_small()
    ensures { StreamsAreSmall }
{}

/// Partitions that say no more than mutations do are no more than these.
pub fn partitions_are_few()
    ensures { PartitionsAreFew }
{}

/// Of mutations whose records are short together there is never too much for a table file.
pub fn little_has_room()
    ensures { LittleHasRoom }
{}
