//! Where a table file that is loaded has a key's partition, and the slice that is read of it.

ghost use Rattle.std.specs.Prelude.{◌≡◌, ◌≤◌, ◌<◌, List as ListOf, ℕ, Some, None, length, slice_get, IfOk, IfSome, IsErrOf};
ghost use Rattle.std.specs.Ordering.{is_eq};
ghost use Rattle.cas_types.specs.Limits.{IsNarrow};
ghost use Rattle.cas_types.specs.Values.{bytes_cmp};
ghost use Rattle.cas_bounds.specs.ClusteringOrder.{clustering_order};
ghost use Rattle.cas_codec.specs.Reading.{Left};
ghost use Rattle.cas_disk.specs.Counts.{Counted};
ghost use Rattle.cas_index.specs.Searches.{IsSliceOf};
ghost use Rattle.cas_index.specs.declared.entries.PartitionEntry.{PartitionEntry};
ghost use Rattle.cas_blocks.specs.Reading.{left_at};
ghost use Rattle.cas_blocks.specs.Heads.{IsHeadAt};
ghost use Rattle.cas_blocks.specs.Inner.Pieces.{MayBeBad};
ghost use Rattle.cas_reading.specs.Slices.{Answers, IsBadBlock};
ghost use Rattle.cas_reading.specs.Inner.Parts.{HeadAnswers, EntryAnswers, IsBadSlice};

use cas_blocks::{Blocks, TableFault, TableFile, read_head_at};
use cas_bounds::Slice;
use cas_disk::{Count, Sealed};
use cas_fragments::Head;
use cas_sstread::Table;
use cas_streams::FragmentSource;
use cas_types::compare_bytes;
use std::alloc::{AllocError, Global};

// The file of a table, as its partitions are read.
fn file_of<'a, F: Sealed>(alloc: Global, table: &'a Table<F>) -> TableFile<'a, F>
    requires { IsNarrow table.now.columns }
    ensures contents { F.contents result.sealed.now ≡ table.now.contents }
    ensures number { result.number ≡ table.now.info.number }
    ensures version { result.version ≡ table.now.kept.version }
    ensures end { result.end ≡ table.now.kept.end }
    ensures order { result.order.now ≡ clustering_order table.now.columns }
    ensures columns { result.columns.now ≡ table.now.columns }
{
    TableFile::new(
        alloc,
        table.file(),
        table.info().number,
        table.version(),
        table.end(),
        table.order(),
        table.columns(),
    )
}

// Whether it is the head of a partition with the key.
fn has_key(head: &Head, key: &[u8]) -> bool
    ensures { result ≡ is_eq (bytes_cmp head.now.key key.now) }
{
    compare_bytes(head.key.as_slice(), key).is_eq()
}

// The head that was read at a place, if it is that of a partition with the key.
fn own_head<F: Sealed>(
    file: &TableFile<'_, F>,
    number: u64,
    place: u64,
    key: &[u8],
    head: Head,
) -> Result<Head, TableFault>
    requires { number ≡ file.now.number }
    ensures told { (left : Left) → left.at ≡ place → IsHeadAt file.now.version file.now.columns.now left head
        → HeadAnswers file.now.version file.now.columns.now file.now.number left key.now result }
    ensures no_read { IsErrOf result TableFault.Read → ⊥ }
{
    if has_key(&head, key) {
        return Ok(head);
    }
    Err(TableFault::BadBlock { number, at: place })
}

// The head at a place of the file of that number, which is to be that of a partition with the key.
fn head_for<F: Sealed>(
    file: &TableFile<'_, F>,
    number: u64,
    place: u64,
    key: &[u8],
    tally: &mut F::Tally,
) -> Result<Head, TableFault>
    requires place { place ≤ file.now.end }
    requires number { number ≡ file.now.number }
    ensures told { (b : ListOf ℕ) → F.contents file.now.sealed.now ≡ Some b
        → HeadAnswers file.now.version file.now.columns.now file.now.number (left_at b file.now.end place) key.now result }
    ensures count { Counted (F.Tally.number tally.old) (F.Tally.number tally.new) (IsErrOf result TableFault.Read) }
{
    match read_head_at(file, place, tally) {
        Ok(head) => own_head(file, number, place, key, head),
        Err(fault) => Err(fault),
    }
}

fn copy_slice(slice: &Slice) -> Result<Slice, AllocError>
    ensures { IfOk result (λ s. s ≡ slice.now) }
{
    slice.copied()
}

// The slice of the partition that has this number in the index, and this key.
fn slice_at<'a, F: Sealed>(
    alloc: Global,
    table: &'a Table<F>,
    partition: u32,
    key: &[u8],
    slice: &Slice,
    tally: &mut F::Tally,
) -> Result<Blocks<'a, F>, TableFault>
    requires narrow { IsNarrow table.now.columns }
    requires there { partition < length table.now.kept.partitions }
    requires one { IsSliceOf (clustering_order table.now.columns) slice.now }
    ensures told { (e : PartitionEntry) → slice_get table.now.kept.partitions partition ≡ Some e → EntryAnswers table.now key.now slice.now
        ⟦<Blocks<'a, F> as FragmentSource>⟧.over_all ⟦<Blocks<'a, F> as FragmentSource>⟧.to_come e result }
    ensures sound { IfOk result (λ b. ⟦<Blocks<'a, F> as FragmentSource>⟧.broken_by b ≡ None) }
    ensures finds { (e : PartitionEntry) → slice_get table.now.kept.partitions partition ≡ Some e → IfOk result (λ b. (n at : ℕ)
        → MayBeBad b.file.order.now b.file.columns.now b.file.number b.file.end (F.contents b.file.sealed.now) b.window.pieces.onward n at
        → IsBadBlock table.now slice.now e n at) }
    ensures fresh { IfOk result (λ b. F.Tally.number b.tally ≡ 0) }
    ensures file { IfOk result (λ b. (F.contents b.file.sealed.now ≡ table.now.contents) × (b.file.end ≡ table.now.kept.end)) }
    ensures count { Counted (F.Tally.number tally.old) (F.Tally.number tally.new) (IsErrOf result TableFault.Read) }
{
    let file = file_of(alloc, table);
    let number = table.info().number;
    let place = table.place(partition);
    let head = match head_for(&file, number, place, key, tally) {
        Ok(head) => head,
        Err(fault) => return Err(fault),
    };
    let block = table.block_at(partition, slice);
    let slice = copy_slice(slice)?;
    let (top, statics) = (head.top, head.columns);
    Ok(Blocks::new(file, top, statics, slice, block, F::Tally::fresh()))
}

/// The slice of the key's partition, as a source whose blocks aren't read yet; none where the filter or the
/// index has no such key. The head is read here, and the tally counts that; the source's own tally, which
/// `end` gives, counts its reads.
pub fn find_slice<'a, F: Sealed>(
    alloc: Global,
    table: &'a Table<F>,
    key: &[u8],
    slice: &Slice,
    tally: &mut F::Tally,
) -> Result<Option<Blocks<'a, F>>, TableFault>
    requires narrow { IsNarrow table.now.columns }
    requires one { IsSliceOf (clustering_order table.now.columns) slice.now }
    ensures told { Answers table.now key.now slice.now ⟦<Blocks<'a, F> as FragmentSource>⟧.over_all ⟦<Blocks<'a, F> as FragmentSource>⟧.to_come result }
    ensures sound { IfOk result (λ o. IfSome o (λ b. ⟦<Blocks<'a, F> as FragmentSource>⟧.broken_by b ≡ None)) }
    ensures finds { IfOk result (λ o. IfSome o (λ b. (n at : ℕ)
        → MayBeBad b.file.order.now b.file.columns.now b.file.number b.file.end (F.contents b.file.sealed.now) b.window.pieces.onward n at
        → IsBadSlice table.now key.now slice.now n at)) }
    ensures fresh { IfOk result (λ o. IfSome o (λ b. F.Tally.number b.tally ≡ 0)) }
    ensures file { IfOk result (λ o. IfSome o (λ b. (F.contents b.file.sealed.now ≡ table.now.contents) × (b.file.end ≡ table.now.kept.end))) }
    ensures count { Counted (F.Tally.number tally.old) (F.Tally.number tally.new) (IsErrOf result TableFault.Read) }
{
    let Some(partition) = table.find(key) else {
        return Ok(None);
    };
    match slice_at(alloc, table, partition, key, slice, tally) {
        Ok(source) => Ok(Some(source)),
        Err(fault) => Err(fault),
    }
}
