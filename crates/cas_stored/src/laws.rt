//! Which tables are those of given contents, when mutations stand in a file that is loaded, and how such a file is read.

ghost use Rattle.cas_stored.specs.Laws.{FilesAreRead, LoadedIsOf, LoadedStands};

/// A table that was loaded of the file of contents is of these.
pub fn loaded_is_of()
    ensures { LoadedIsOf }
{}

/// In the file of contents, loaded and listed as it tells of itself, the mutations stand of which these
/// say what was written.
pub fn loaded_stands()
    ensures { LoadedStands }
{}

/// A file in which mutations stand is never found bad by a read.
pub fn files_are_read()
    ensures { FilesAreRead }
{}
