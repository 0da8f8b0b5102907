//! What holds of every open store.

ghost use Rattle.cas_sessions.specs.Laws.{FilesAreWhole, FullNoMore};

/// A memtable is flushed for being full once: behind a flush that was tried it isn't full any more, whether the disk failed or not.
pub fn full_no_more()
    ensures { FullNoMore }
{}

/// A table file in which mutations stand, one that was found or one of a flush, is never found bad by a check.
pub fn files_are_whole()
    ensures { FilesAreWhole }
{}
