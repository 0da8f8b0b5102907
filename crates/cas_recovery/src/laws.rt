//! What holds of what a store's shards may have been, by its folder.

ghost use Rattle.cas_recovery.specs.Laws.{ExplainedIsTaken, LogExplains};

use cas_disk::Folder;

/// Where no mutation stands in a table file, each shard may have been what the log has of it, by all that is asked
/// of a shard with table files.
pub fn log_explains<F: Folder>(folder: &F)
    ensures { LogExplains (F.disk folder.now) }
{
    let _folder = folder;
}

/// A store whose folder some shards explain, as they were before, isn't refused for a table file.
pub fn explained_is_taken<F: Folder>(folder: &F)
    ensures { ExplainedIsTaken (F.disk folder.now) }
{
    let _folder = folder;
}
