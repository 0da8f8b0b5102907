//! Reads the segments of a log, one after another.

ghost use Rattle.std.specs.Prelude.{◌≡◌, ◌++◌, [], List, OnOk, IfOk, IsErrOf};
ghost use Rattle.cas_atoms.specs.declared.atom.Mutation.{Mutation as MutationOf};
ghost use Rattle.cas_disk.specs.Counts.{Counted};
ghost use Rattle.cas_disk.specs.Disk.{Image, During, Follows, Same};
ghost use Rattle.cas_replay.specs.Reading.{log_of, segment_in, above_in};
ghost use Rattle.cas_replay.specs.Tops.{AreNotesOf};
ghost use Rattle.cas_replay.specs.Replays.{Replays, HandsOn, IsReplayOf, IsOfALog, Last};

use crate::fault::ReplayFault;
use crate::file::replay_segment;
use crate::lasts::Lasts;
use crate::segment::Segment;
use crate::taker::TakesMutations;
use crate::tops::Tops;
use cas_atoms::Mutation;
use cas_disk::Folder;
use cas_types::TableSchema;
use std::alloc::Global;

/// Reads the mutations of a log's segments, and hands on each that is above its frontier, in order, as
/// it is read; or tells the first segment with a field that isn't as it must be, and the field's place.
/// The segments are those that are listed, in order; the frontiers are those of each table in each
/// shard, table by table. After Ok the segments last, and the answer is what is noted of all their mutations.
pub fn replay_to<F: Folder, T: TakesMutations>(
    alloc: Global,
    folder: &mut F,
    segments: &[u64],
    tables: &[TableSchema],
    shards: u8,
    frontiers: &[u64],
    taker: &mut T,
) -> Result<Tops, ReplayFault>
    ensures exact { (first : List MutationOf) → T.has_taken first taker.old → (c : Image) → (F.disk folder.old).reads c
        → HandsOn (λ given. T.has_taken (first ++ given) taker.new) result
        (above_in shards frontiers.now (log_of tables.now shards (segment_in c) segments.now [])) }
    ensures replayed { (first : List MutationOf) → T.has_taken first taker.old → IfOk result (λ tops. (given : List MutationOf)
        × T.has_taken (first ++ given) taker.new
        × (r : IsReplayOf tables.now shards segments.now frontiers.now (F.disk folder.old) given) × AreNotesOf shards tops r.all) }
    ensures taken { (first : List MutationOf) → T.has_taken first taker.old → (given : List MutationOf) × T.has_taken (first ++ given) taker.new
        × IsOfALog tables.now shards frontiers.now given }
    ensures lasts { OnOk result (Last segments.now (F.disk folder.new)) }
    ensures reads { Follows Same (F.disk folder.old).reads (F.disk folder.new).reads }
    ensures during { During Same (F.disk folder.old) (F.disk folder.new) }
    ensures count { Counted (F.faults_of folder.old) (F.faults_of folder.new) (IsErrOf result ReplayFault.Failed) }
{
    let mut lasts = Lasts::none(alloc);
    for segment in segments {
        let of = Segment {
            alloc,
            number: *segment,
            tables,
            shards,
            frontiers,
        };
        if let Err(fault) = replay_segment(folder, &of, &mut lasts, taker) {
            return Err(fault);
        }
    }
    Ok(lasts.tops)
}

/// The mutations of a log's segments that are above their frontiers, in order; or the first segment with
/// a field that isn't as it must be, and the field's place. The segments are those that are listed, in
/// order; the frontiers are those of each table in each shard, table by table. After Ok the segments
/// last.
pub fn replay<F: Folder>(
    alloc: Global,
    folder: &mut F,
    segments: &[u64],
    tables: &[TableSchema],
    shards: u8,
    frontiers: &[u64],
) -> Result<Vec<Mutation>, ReplayFault>
    ensures exact { (c : Image) → (F.disk folder.old).reads c
        → Replays (λ v. v.items) result (above_in shards frontiers.now (log_of tables.now shards (segment_in c) segments.now [])) }
    ensures replayed { IfOk result (λ v. IsReplayOf tables.now shards segments.now frontiers.now (F.disk folder.old) v.items) }
    ensures lasts { OnOk result (Last segments.now (F.disk folder.new)) }
    ensures reads { Follows Same (F.disk folder.old).reads (F.disk folder.new).reads }
    ensures during { During Same (F.disk folder.old) (F.disk folder.new) }
    ensures count { Counted (F.faults_of folder.old) (F.faults_of folder.new) (IsErrOf result ReplayFault.Failed) }
{
    let mut mutations = Vec::new(alloc);
    match replay_to(
        alloc,
        folder,
        segments,
        tables,
        shards,
        frontiers,
        &mut mutations,
    ) {
        Ok(_tops) => Ok(mutations),
        Err(fault) => Err(fault),
    }
}
