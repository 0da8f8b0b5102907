//! The journal of a store.

ghost use Rattle.std.specs.Option.{ForSome};
ghost use Rattle.cas_log.specs.Segment.{IsSize};
ghost use Rattle.cas_journal.specs.Fresh.{IsBegun, IsFresh};

use crate::notes::Notes;
use cas_gates::First;
use cas_log::Log;
use cas_manifest::Manifest;

/// The manifest and the commit log of a store, and where they are written next.
#[derive(Drop)]
pub struct Journal {
    pub(crate) manifest: Manifest,
    /// The segment that is written; none where no number or no place in the manifest was left for one.
    pub(crate) log: Option<Log>,
    /// A segment that was begun and isn't named yet, since memory or the manifest's limit stood in the way.
    pub(crate) spare: Option<Log>,
    /// The greatest number under which a segment was begun, or tried to, or named. No file is above it.
    pub(crate) last_segment: u64,
    /// How long a segment is, in bytes.
    pub(crate) size: u64,
    /// The first failed create, write or sync of manifest or log. Once one is kept, neither is written.
    pub(crate) first: Option<First>,
    /// What is noted of the segments that are listed: of each the greatest numbers of its mutations.
    pub(crate) notes: Notes,
    ghost sized: { IsSize size },
    ghost written: { ForSome log (λ l. IsBegun size last_segment l) },
    ghost fresh: { ForSome spare (λ l. IsFresh size last_segment l) },
}
