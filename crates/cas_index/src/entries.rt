//! What the index tells of partitions and their blocks.

ghost use Rattle.std.specs.Prelude.{◌≡◌, None};
ghost use Rattle.std.specs.Option.{option_copied};
ghost use Rattle.std.specs.List.{last_or};
ghost use Rattle.cas_index.specs.Entries.{block_place, last_place};

use cas_bounds::Cut;
use cas_cell::Deletion;
use cas_types::{Bytes, List};

/// A block of a partition: the cut where it begins, its place in the file, and the range deletion
/// in force before its first fragment.
#[derive(Drop)]
pub struct BlockEntry {
    pub cut: Cut,
    pub place: u64,
    pub in_force: Option<Deletion>,
}

/// A partition: its key, its place in the file, and its blocks.
#[derive(Drop)]
pub struct PartitionEntry {
    pub key: Bytes,
    pub place: u64,
    pub blocks: List<BlockEntry>,
}

/// Where a read of a slice begins: the number of a block in its partition, the block's place in the
/// file, and the range deletion in force before its first fragment.
#[derive(Clone, Copy)]
pub struct BlockAt {
    pub number: u32,
    pub place: u64,
    pub in_force: Option<Deletion>,
}

// The last of them, if there is one.
pub(crate) fn last<T>(items: &[T]) -> Option<&T>
    ensures { option_copied result ≡ last_or None items.now }
{
    items.last()
}

// The place of the last of these blocks, or that of their partition.
pub(crate) fn block_place(place: u64, blocks: &[BlockEntry]) -> u64
    ensures { result ≡ block_place place (last_or None blocks.now) }
{
    match last(blocks) {
        Some(block) => block.place,
        None => place,
    }
}

// The last place of these partitions, or the file's start.
pub(crate) fn last_place(partitions: &[PartitionEntry]) -> u64
    ensures { result ≡ last_place (last_or None partitions.now) }
{
    match last(partitions) {
        Some(partition) => block_place(partition.place, partition.blocks.as_slice()),
        None => 0,
    }
}
