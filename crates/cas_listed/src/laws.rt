//! What stands in listed files that are loaded, and which of them are never bad.

ghost use Rattle.cas_listed.specs.Laws.{FilesAreNeverBad, ListedFilesHold};

/// Files that were loaded as they are listed hold the mutations that stand in the listed ones.
pub fn listed_files_hold()
    ensures { ListedFilesHold }
{}

/// Where mutations stand in each of the listed files, none of these is told as bad.
pub fn files_are_never_bad()
    ensures { FilesAreNeverBad }
{}
