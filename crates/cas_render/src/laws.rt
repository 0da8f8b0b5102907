//! What holds of all that is listed.

ghost use Rattle.cas_render.specs.Laws.{NumbersAscend, StatusAscends};

/// A status has each table in each shard once, in the order of the names and the shards, with the
/// numbers of the files there ascending.
pub fn status_ascends()
    ensures tables { StatusAscends }
    ensures files { NumbersAscend }
{}
