//! What a purge leaves.

ghost use Rattle.cas_purge.specs.Laws.{PurgeDropsDroppable, PurgeIsWellFormed, PurgeIsMerged, MergedAllWin, PurgeIsSameAbove, PurgeKeepsAnswers};

/// The atoms of the purged stream are exactly those of the stream that aren't droppable.
pub fn purge_drops_droppable()
    ensures { PurgeDropsDroppable }
{}

/// A well-formed stream, purged, is well formed.
pub fn purge_is_well_formed()
    ensures { PurgeIsWellFormed }
{}

/// A merged stream, purged, is merged.
pub fn purge_is_merged()
    ensures { PurgeIsMerged }
{}

/// In a merged stream each write wins.
pub fn merged_all_win()
    ensures { MergedAllWin }
{}

/// Where each write wins, what a purge leaves is the same above what it dropped.
pub fn purge_is_same_above()
    ensures { PurgeIsSameAbove }
{}

/// Where nothing elsewhere is earlier than the limit, a purge changes no answer.
pub fn purge_keeps_answers()
    ensures { PurgeKeepsAnswers }
{}
