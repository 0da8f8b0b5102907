//! What holds of every open store.

ghost use Rattle.cas_lasting.specs.Laws.{AllShare, LittleIsNeverTooMuch, NothingIsTooMuch};
ghost use Rattle.cas_lasting.specs.Next.{LeftExplains};

use cas_disk::Folder;

/// What an open store stands for in the eyes of one session it stands for in those of any other, under that
/// one's number and with its writes; and its disk keeps the same.
pub fn sessions_share<F: Folder>(folder: &F)
    ensures { AllShare (F.disk folder.now) }
{
    let _folder = folder;
}

/// What a crash leaves of a store of which no segment was dropped explains its history: for the next run, which finds
/// just that, each shard may have been what it was before, with the front of what was accepted behind; so the next run
/// begins with that, its table files among it.
pub fn left_explains<F: Folder>(before: &F)
    ensures { LeftExplains (F.disk before.now) }
{
    let _before = before;
}

/// A flush isn't refused for too much of a table to which nothing was written in the shard.
pub fn nothing_is_too_much()
    ensures { NothingIsTooMuch }
{}

/// Nor is it where what was written has short records: together at most 2^28 bytes.
pub fn little_is_never_too_much()
    ensures { LittleIsNeverTooMuch }
{}
