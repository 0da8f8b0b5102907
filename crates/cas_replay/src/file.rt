//! Reads a segment from its folder, block by block.

ghost use Rattle.std.specs.Prelude.{◌≡◌, ◌+◌, ◌++◌, ◌≤◌, ℕ, true, List, ◌∷◌, [], length, drop, IfOk, OnOk, IsErrOf};
ghost use Rattle.cas_disk.specs.Counts.{Counted};
ghost use Rattle.cas_disk.specs.Disk.{Image, During, Follows, Same, bytes_of};
ghost use Rattle.cas_atoms.specs.declared.atom.Mutation.{Mutation as MutationOf};
ghost use Rattle.cas_files.specs.Ahead.{AreNext};
ghost use Rattle.cas_log.specs.Segment.{IsSize};
ghost use Rattle.cas_log.specs.declared.limits.TheConstants.{GREATEST_SEGMENT};
ghost use Rattle.cas_replay.specs.Reading.{header_at, blocks_at, segment_of, segment_in};
ghost use Rattle.cas_replay.specs.Replays.{Last};
ghost use Rattle.cas_replay.specs.Inner.Steps.{gated_at, left_of, values_of, HasBlock, ReadsOn, Reaches, StepsOn};
ghost use Rattle.cas_replay.specs.Inner.Progress.{Stands, Went, GoesThrough};

use crate::fault::{ReplayFault, of_field};
use crate::lasts::Lasts;
use crate::reading::{read_header, read_opened, read_part, take_body};
use crate::segment::Segment;
use crate::taker::TakesMutations;
use cas_codec::Reader;
use cas_disk::{Folder, FolderFault, Name};
use cas_files::FileReader;
use cas_io::Failed;

/// So many bytes has a segment before its first gate.
const HEADER: usize = 24;

/// So many has a gate with the lengths of its block.
const HEAD: usize = 9;

// The size that the header tells; the reader goes on behind it.
fn take_header<F: Folder>(
    folder: &mut F,
    file: &mut FileReader,
    segment: u64,
) -> Result<u64, ReplayFault>
    requires { file.old.at ≤ GREATEST_SEGMENT }
    ensures name { file.new.name ≡ file.old.name }
    ensures at { OnOk result (file.new.at ≡ file.old.at + 24) }
    ensures size { IfOk result IsSize }
    ensures exact { (c : Image) → (F.disk folder.old).reads c → AreNext file.old.at (bytes_of (c file.old.name)) file.old.bytes
        → ReadsOn (λ size. size) segment (bytes_of (c file.old.name)) file.new result (header_at segment (left_of (bytes_of (c file.old.name)) file.old.at)) }
    ensures reads { Follows Same (F.disk folder.old).reads (F.disk folder.new).reads }
    ensures during { During Same (F.disk folder.old) (F.disk folder.new) }
    ensures count { Counted (F.faults_of folder.old) (F.faults_of folder.new) (IsErrOf result ReplayFault.Failed) }
{
    match file.reach(folder, HEADER) {
        Ok(()) => {}
        Err(FolderFault::Failed) => return Err(ReplayFault::Failed),
        Err(FolderFault::Mem) => return Err(ReplayFault::Mem),
    }
    let mut reader = Reader::new(file.ahead(), file.at());
    match read_header(&mut reader, segment) {
        Ok(size) => {
            file.pass(HEADER);
            Ok(size)
        }
        Err(fault) => Err(of_field(segment, fault)),
    }
}

// Reads until the next block is at hand, or all that the file has; false where its gate isn't open.
fn reach_block<F: Folder>(
    folder: &mut F,
    file: &mut FileReader,
    segment: u64,
    size: u64,
) -> Result<bool, ReplayFault>
    requires place { file.old.at ≤ GREATEST_SEGMENT }
    ensures name { file.new.name ≡ file.old.name }
    ensures at { file.new.at ≡ file.old.at }
    ensures exact { (c : Image) → (F.disk folder.old).reads c → AreNext file.old.at (bytes_of (c file.old.name)) file.old.bytes
        → Reaches segment size file.old.at (bytes_of (c file.old.name)) file.new result }
    ensures reads { Follows Same (F.disk folder.old).reads (F.disk folder.new).reads }
    ensures during { During Same (F.disk folder.old) (F.disk folder.new) }
    ensures count { Counted (F.faults_of folder.old) (F.faults_of folder.new) (IsErrOf result ReplayFault.Failed) }
{
    match file.reach(folder, HEAD) {
        Ok(()) => {}
        Err(FolderFault::Failed) => return Err(ReplayFault::Failed),
        Err(FolderFault::Mem) => return Err(ReplayFault::Mem),
    }
    let mut reader = Reader::new(file.ahead(), file.at());
    let long = match read_opened(&mut reader, size) {
        Ok(Some(long)) => long as usize,
        Ok(None) => return Ok(false),
        Err(fault) => return Err(of_field(segment, fault)),
    };
    match file.reach(folder, HEAD + long) {
        Ok(()) => Ok(true),
        Err(FolderFault::Failed) => Err(ReplayFault::Failed),
        Err(FolderFault::Mem) => Err(ReplayFault::Mem),
    }
}

// Hands on the mutations of the block at hand, and passes over it; false where its gate isn't open.
fn take_at_hand<T: TakesMutations>(
    file: &mut FileReader,
    of: &Segment<'_>,
    size: u64,
    lasts: &mut Lasts,
    taker: &mut T,
) -> Result<bool, ReplayFault>
    requires place { file.old.at ≤ GREATEST_SEGMENT }
    ensures name { file.new.name ≡ file.old.name }
    ensures on { IfOk result (λ opened. opened ≡ true → (file.old.at + 9 ≤ file.new.at) × (file.new.at + 1 ≤ size)) }
    ensures went { (first before : List MutationOf)
        → Stands of.now.shards of.now.frontiers.now (λ ms. T.has_taken (first ++ ms) taker.old) lasts.old before
        → Went of.now.tables.now of.now.shards of.now.frontiers.now (λ ms. T.has_taken (first ++ ms) taker.new) lasts.new before
        (λ after. (f : List ℕ) → AreNext file.old.at f file.old.bytes → HasBlock size file.old.at f file.old.bytes
        → StepsOn of.now.number f file.new after result (gated_at of.now.tables.now of.now.shards size before (left_of f file.old.at))) }
    ensures failed { IsErrOf result ReplayFault.Failed → ⊥ }
{
    let mut reader = Reader::new(file.ahead(), file.at());
    let before = reader.left().len();
    match read_part(&mut reader, size) {
        Ok(Some(part)) => {
            let (mut body, count) = part;
            let taken = before - reader.left().len();
            match take_body(of, &mut body, count, lasts, taker) {
                Ok(()) => {
                    file.pass(taken);
                    Ok(true)
                }
                Err(fault) => Err(of_field(of.number, fault)),
            }
        }
        Ok(None) => Ok(false),
        Err(fault) => Err(of_field(of.number, fault)),
    }
}

// Hands on the mutations of the next block; false where its gate isn't open.
fn take_block<F: Folder, T: TakesMutations>(
    folder: &mut F,
    file: &mut FileReader,
    of: &Segment<'_>,
    size: u64,
    lasts: &mut Lasts,
    taker: &mut T,
) -> Result<bool, ReplayFault>
    requires place { file.old.at ≤ GREATEST_SEGMENT }
    ensures name { file.new.name ≡ file.old.name }
    ensures on { IfOk result (λ opened. opened ≡ true → (file.old.at + 9 ≤ file.new.at) × (file.new.at + 1 ≤ size)) }
    ensures went { (first before : List MutationOf)
        → Stands of.now.shards of.now.frontiers.now (λ ms. T.has_taken (first ++ ms) taker.old) lasts.old before
        → Went of.now.tables.now of.now.shards of.now.frontiers.now (λ ms. T.has_taken (first ++ ms) taker.new) lasts.new before
        (λ after. (c : Image) → (F.disk folder.old).reads c → AreNext file.old.at (bytes_of (c file.old.name)) file.old.bytes
        → StepsOn of.now.number (bytes_of (c file.old.name)) file.new after result
        (gated_at of.now.tables.now of.now.shards size before (left_of (bytes_of (c file.old.name)) file.old.at))) }
    ensures reads { Follows Same (F.disk folder.old).reads (F.disk folder.new).reads }
    ensures during { During Same (F.disk folder.old) (F.disk folder.new) }
    ensures count { Counted (F.faults_of folder.old) (F.faults_of folder.new) (IsErrOf result ReplayFault.Failed) }
{
    match reach_block(folder, file, of.number, size) {
        Ok(true) => take_at_hand(file, of, size, lasts, taker),
        Ok(false) => Ok(false),
        Err(fault) => Err(fault),
    }
}

// Hands on the mutations of the blocks up to the first gate that isn't open.
fn take_blocks<F: Folder, T: TakesMutations>(
    folder: &mut F,
    file: &mut FileReader,
    of: &Segment<'_>,
    size: u64,
    lasts: &mut Lasts,
    taker: &mut T,
) -> Result<(), ReplayFault>
    requires place { file.old.at ≤ size }
    requires size { size ≤ GREATEST_SEGMENT }
    ensures went { (first before : List MutationOf)
        → Stands of.now.shards of.now.frontiers.now (λ ms. T.has_taken (first ++ ms) taker.old) lasts.old before
        → Went of.now.tables.now of.now.shards of.now.frontiers.now (λ ms. T.has_taken (first ++ ms) taker.new) lasts.new before
        (λ after. (c : Image) → (F.disk folder.old).reads c → AreNext file.old.at (bytes_of (c file.old.name)) file.old.bytes
        → GoesThrough after of.now.number result (values_of (blocks_at of.now.tables.now of.now.shards
        (length (drop file.old.at (bytes_of (c file.old.name)))) size before (left_of (bytes_of (c file.old.name)) file.old.at)))) }
    ensures reads { Follows Same (F.disk folder.old).reads (F.disk folder.new).reads }
    ensures during { During Same (F.disk folder.old) (F.disk folder.new) }
    ensures count { Counted (F.faults_of folder.old) (F.faults_of folder.new) (IsErrOf result ReplayFault.Failed) }
{
    'turns: loop {
        match take_block(folder, file, of, size, lasts, taker) {
            Ok(true) => {}
            Ok(false) => return Ok(()),
            Err(fault) => return Err(fault),
        }
    }
}

// Hands on the mutations of a segment.
fn read_segment<F: Folder, T: TakesMutations>(
    folder: &mut F,
    of: &Segment<'_>,
    lasts: &mut Lasts,
    taker: &mut T,
) -> Result<(), ReplayFault>
    ensures went { (first before : List MutationOf)
        → Stands of.now.shards of.now.frontiers.now (λ ms. T.has_taken (first ++ ms) taker.old) lasts.old before
        → Went of.now.tables.now of.now.shards of.now.frontiers.now (λ ms. T.has_taken (first ++ ms) taker.new) lasts.new before
        (λ after. (c : Image) → (F.disk folder.old).reads c → GoesThrough after of.now.number result
        (segment_of of.now.tables.now of.now.shards of.now.number before (segment_in c of.now.number))) }
    ensures reads { Follows Same (F.disk folder.old).reads (F.disk folder.new).reads }
    ensures during { During Same (F.disk folder.old) (F.disk folder.new) }
    ensures count { Counted (F.faults_of folder.old) (F.faults_of folder.new) (IsErrOf result ReplayFault.Failed) }
{
    let mut file = FileReader::new(of.alloc, Name::Log(of.number));
    match take_header(folder, &mut file, of.number) {
        Ok(size) => take_blocks(folder, &mut file, of, size, lasts, taker),
        Err(fault) => Err(fault),
    }
}

/// Hands on the mutations of a segment, and makes it last. A segment that isn't there reads as one without
/// bytes.
pub(crate) fn replay_segment<F: Folder, T: TakesMutations>(
    folder: &mut F,
    of: &Segment<'_>,
    lasts: &mut Lasts,
    taker: &mut T,
) -> Result<(), ReplayFault>
    ensures went { (first before : List MutationOf)
        → Stands of.now.shards of.now.frontiers.now (λ ms. T.has_taken (first ++ ms) taker.old) lasts.old before
        → Went of.now.tables.now of.now.shards of.now.frontiers.now (λ ms. T.has_taken (first ++ ms) taker.new) lasts.new before
        (λ after. (c : Image) → (F.disk folder.old).reads c → GoesThrough after of.now.number result
        (segment_of of.now.tables.now of.now.shards of.now.number before (segment_in c of.now.number))) }
    ensures lasts { OnOk result (Last (of.now.number ∷ []) (F.disk folder.new)) }
    ensures reads { Follows Same (F.disk folder.old).reads (F.disk folder.new).reads }
    ensures during { During Same (F.disk folder.old) (F.disk folder.new) }
    ensures count { Counted (F.faults_of folder.old) (F.faults_of folder.new) (IsErrOf result ReplayFault.Failed) }
{
    if let Err(fault) = read_segment(folder, of, lasts, taker) {
        return Err(fault);
    }
    match folder.sync(Name::Log(of.number)) {
        Ok(()) => Ok(()),
        Err(Failed) => Err(ReplayFault::Failed),
    }
}
