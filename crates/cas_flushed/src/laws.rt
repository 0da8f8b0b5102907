//! What stands in a table file of contents, and in one that a flush wrote.

ghost use Rattle.cas_flushed.specs.Laws.{ContentsStand, FlushedSayTheSame, ListedContentsStand};

/// In a file of contents that is loaded the mutations stand that its partitions tell, one for each.
pub fn contents_stand()
    ensures { ContentsStand }
{}

/// The same of a file that stands in an image as it is listed.
pub fn listed_contents_stand()
    ensures { ListedContentsStand }
{}

/// What a flush wrote says, key by key, the same as the mutations that it wrote, and no more.
pub fn flushed_say_the_same()
    ensures { FlushedSayTheSame }
{}
