//! Reads the index of a table file.

ghost use Rattle.std.specs.Prelude.{◌≡◌, None, IfOk};
ghost use Rattle.std.specs.List.{last_or};
ghost use Rattle.cas_codec.specs.Reading.{Gives, maybe_at};
ghost use Rattle.cas_records.specs.Reading.{deletion_at};
ghost use Rattle.cas_index.specs.Entries.{is_next_cut, is_next_key};
ghost use Rattle.cas_index.specs.Inner.Following.{next_cut_at, next_key_at};
ghost use Rattle.cas_index.specs.Reading.{following_at, place_at, block_at, blocks_at, partition_at, index_at};

use crate::entries::{BlockEntry, PartitionEntry, block_place, last, last_place};
use crate::index::PartitionIndex;
use crate::search::begins_upto;
use cas_bounds::{Cut, RowOrder};
use cas_cell::Deletion;
use cas_codec::{ReadFault, Reader};
use cas_info::PARTITION_LIMIT;
use cas_records::{read_cut, read_deletion, read_key};
use cas_types::{Bytes, List, compare_bytes};
use std::alloc::Global;

// A place behind another one.
#[tactic(auto, unfolding(crate::specs::Reading::place_at, cas_codec::specs::Reading::checked))]
fn read_place(reader: &mut Reader<'_>, last: u64) -> Result<u64, ReadFault>
    ensures { Gives (λ n. n) result reader.new (place_at last reader.old) }
{
    let at = reader.at();
    let place = reader.u64()?;
    if last < place {
        return Ok(place);
    }
    Err(ReadFault::Bad { at })
}

// A deletion that may be there.
#[tactic(auto, unfolding(cas_codec::specs::Reading::maybe_at))]
fn read_in_force(reader: &mut Reader<'_>) -> Result<Option<Deletion>, ReadFault>
    ensures { Gives (λ d. d) result reader.new (maybe_at deletion_at reader.old) }
{
    if reader.flag()? {
        return Ok(Some(read_deletion(reader)?));
    }
    Ok(None)
}

// Whether a cut doesn't stand below that of the last of these blocks.
fn is_next_cut(before: &[BlockEntry], cut: &Cut) -> bool
    ensures { result ≡ is_next_cut (last_or None before.now) cut.now }
{
    match last(before) {
        Some(last) => begins_upto(last, cut),
        None => true,
    }
}

// The cut of a block that follows those before it.
#[tactic(auto, unfolding(crate::specs::Inner::Following::next_cut_at, cas_codec::specs::Reading::checked))]
fn read_next_cut(
    alloc: Global,
    reader: &mut Reader<'_>,
    order: &RowOrder,
    before: &[BlockEntry],
) -> Result<Cut, ReadFault>
    ensures { Gives (λ c. c) result reader.new (next_cut_at order.now (last_or None before.now) reader.old) }
{
    let at = reader.at();
    let cut = read_cut(alloc, reader, order)?;
    if !is_next_cut(before, &cut) {
        return Err(ReadFault::Bad { at });
    }
    Ok(cut)
}

// A block that follows those before it, of a partition at that place.
#[tactic(auto, unfolding(crate::specs::Reading::block_at, crate::specs::Inner::Following::next_cut_at))]
fn read_block(
    alloc: Global,
    reader: &mut Reader<'_>,
    order: &RowOrder,
    place: u64,
    before: &[BlockEntry],
) -> Result<BlockEntry, ReadFault>
    ensures { Gives (λ b. b) result reader.new (block_at order.now place (last_or None before.now) reader.old) }
{
    let cut = read_next_cut(alloc, reader, order, before)?;
    let place = read_place(reader, block_place(place, before))?;
    let in_force = read_in_force(reader)?;
    Ok(BlockEntry {
        cut,
        place,
        in_force,
    })
}

// So many blocks of a partition at that place.
fn read_each_block(
    alloc: Global,
    reader: &mut Reader<'_>,
    order: &RowOrder,
    place: u64,
    count: u32,
) -> Result<Vec<BlockEntry>, ReadFault>
    ensures { Gives (λ v. v.items) result reader.new (following_at (block_at order.now place) count None reader.old) }
{
    let mut blocks = Vec::new(alloc);
    for _done in 0..count {
        match read_block(alloc, reader, order, place, &blocks) {
            Ok(block) => blocks.push(block)?,
            Err(fault) => return Err(fault),
        }
    }
    Ok(blocks)
}

// The blocks of a partition at that place.
#[tactic(auto, unfolding(crate::specs::Reading::blocks_at))]
fn read_blocks(
    alloc: Global,
    reader: &mut Reader<'_>,
    order: &RowOrder,
    place: u64,
) -> Result<List<BlockEntry>, ReadFault>
    ensures { Gives (λ l. l) result reader.new (blocks_at order.now place reader.old) }
{
    let count = reader.u32()?;
    let blocks = read_each_block(alloc, reader, order, place, count)?;
    Ok(List::from_vec(blocks))
}

// Whether a key stands above that of the last of these partitions.
fn is_next_key(before: &[PartitionEntry], key: &[u8]) -> bool
    ensures { result ≡ is_next_key (last_or None before.now) key.now }
{
    match last(before) {
        Some(last) => compare_bytes(last.key.as_slice(), key).is_lt(),
        None => true,
    }
}

// The key of a partition that follows those before it.
#[tactic(auto, unfolding(crate::specs::Inner::Following::next_key_at, cas_codec::specs::Reading::checked))]
fn read_next_key(
    alloc: Global,
    reader: &mut Reader<'_>,
    before: &[PartitionEntry],
) -> Result<Bytes, ReadFault>
    ensures { Gives (λ k. k) result reader.new (next_key_at (last_or None before.now) reader.old) }
{
    let at = reader.at();
    let key = read_key(alloc, reader)?;
    if !is_next_key(before, key.as_slice()) {
        return Err(ReadFault::Bad { at });
    }
    Ok(key)
}

// A partition that follows those before it.
#[tactic(auto, unfolding(crate::specs::Reading::partition_at, crate::specs::Inner::Following::next_key_at))]
fn read_partition(
    alloc: Global,
    reader: &mut Reader<'_>,
    order: &RowOrder,
    before: &[PartitionEntry],
) -> Result<PartitionEntry, ReadFault>
    ensures { Gives (λ p. p) result reader.new (partition_at order.now (last_or None before.now) reader.old) }
{
    let key = read_next_key(alloc, reader, before)?;
    let place = read_place(reader, last_place(before))?;
    let blocks = read_blocks(alloc, reader, order, place)?;
    Ok(PartitionEntry { key, place, blocks })
}

// So many partitions.
fn read_each_partition(
    alloc: Global,
    reader: &mut Reader<'_>,
    order: &RowOrder,
    count: u32,
) -> Result<Vec<PartitionEntry>, ReadFault>
    ensures { Gives (λ v. v.items) result reader.new (following_at (partition_at order.now) count None reader.old) }
{
    let mut partitions = Vec::new(alloc);
    for _done in 0..count {
        match read_partition(alloc, reader, order, &partitions) {
            Ok(partition) => partitions.push(partition)?,
            Err(fault) => return Err(fault),
        }
    }
    Ok(partitions)
}

// The partitions after their number.
#[tactic(auto, unfolding(crate::specs::Reading::index_at))]
fn read_partitions(
    alloc: Global,
    reader: &mut Reader<'_>,
    order: &RowOrder,
) -> Result<Vec<PartitionEntry>, ReadFault>
    ensures { Gives (λ v. v.items) result reader.new (index_at order.now reader.old) }
{
    let count = reader.u32_within(1, PARTITION_LIMIT)?;
    read_each_partition(alloc, reader, order, count)
}

/// Reads the index of a table that orders its rows so. Memory is taken only for partitions and
/// blocks that are there.
pub fn read_index(
    alloc: Global,
    reader: &mut Reader<'_>,
    order: &RowOrder,
) -> Result<PartitionIndex, ReadFault>
    ensures exact { Gives (λ i. i.partitions) result reader.new (index_at order.now reader.old) }
    ensures order { IfOk result (λ i. i.order ≡ order.now) }
{
    let _left = reader.left();
    let partitions = read_partitions(alloc, reader, order)?;
    Ok(PartitionIndex::of(order.clone()?, partitions))
}
