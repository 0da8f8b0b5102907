//! Writes the index of a table file.

ghost use Rattle.std.specs.Prelude.{◌≡◌, ◌+◌, ◌<◌, ◌≤◌, ◌^◌, ◌++◌, length, take, OnOk, OnErr, vec_len};
ghost use Rattle.std.specs.List.{All, flat_map};
ghost use Rattle.std.specs.Vec.{vec_capacity};
ghost use Rattle.cas_codec.specs.Fields.{bytes16, maybe, u32, u64};
ghost use Rattle.cas_records.specs.Spelling.{deletion_bytes};
ghost use Rattle.cas_index.specs.Spelling.{block_bytes, partition_bytes, index_bytes};
ghost use Rattle.cas_index.specs.Allowed.{HasRoom, HasRooms};

use crate::entries::{BlockEntry, PartitionEntry};
use crate::index::PartitionIndex;
use cas_cell::Deletion;
use cas_codec::{put_bytes16, put_flag, put_u32, put_u64};
use cas_records::{put_cut, put_deletion, values_len};
use cas_types::Mem;

// Adds a deletion that may be there.
#[tactic(auto, using(crate::proofs::Lengths::none_long, crate::proofs::Lengths::some_long))]
fn put_in_force(out: &mut Vec<u8>, deletion: &Option<Deletion>) -> Result<(), Mem>
    ensures written { OnOk result (out.new.items ≡ out.old.items ++ maybe deletion_bytes deletion.now) }
    ensures length { OnOk result (vec_len out.new ≡ vec_len out.old + length (maybe deletion_bytes deletion.now)) }
    ensures unchanged { OnErr result (out.new.items ≡ out.old.items) }
    ensures full { OnErr result (vec_capacity out.old < vec_len out.old + length (maybe deletion_bytes deletion.now)) }
    ensures capacity { vec_capacity out.old ≤ vec_capacity out.new }
{
    match deletion {
        None => put_flag(out, false),
        Some(deletion) => {
            out.reserve(17)?;
            put_flag(out, true)?;
            put_deletion(out, deletion)
        }
    }
}

// Adds a block.
#[tactic(auto, using(crate::proofs::Lengths::block_long))]
fn put_block(out: &mut Vec<u8>, block: &BlockEntry) -> Result<(), Mem>
    requires { HasRoom block.now }
    ensures written { OnOk result (out.new.items ≡ out.old.items ++ block_bytes block.now) }
    ensures length { OnOk result (vec_len out.new ≡ vec_len out.old + length (block_bytes block.now)) }
    ensures kept { OnErr result (take (vec_len out.old) out.new.items ≡ out.old.items) }
    ensures full { OnErr result (vec_capacity out.old < vec_len out.old + length (block_bytes block.now)) }
    ensures capacity { vec_capacity out.old ≤ vec_capacity out.new }
{
    put_cut(out, &block.cut)?;
    put_u64(out, block.place)?;
    put_in_force(out, &block.in_force)
}

// Adds blocks, one after another.
fn put_blocks(out: &mut Vec<u8>, blocks: &[BlockEntry]) -> Result<(), Mem>
    requires { All HasRoom blocks.now }
    ensures written { OnOk result (out.new.items ≡ out.old.items ++ flat_map block_bytes blocks.now) }
    ensures length { OnOk result (vec_len out.new ≡ vec_len out.old + length (flat_map block_bytes blocks.now)) }
    ensures kept { OnErr result (take (vec_len out.old) out.new.items ≡ out.old.items) }
    ensures full { OnErr result (vec_capacity out.old < vec_len out.old + length (flat_map block_bytes blocks.now)) }
    ensures capacity { vec_capacity out.old ≤ vec_capacity out.new }
{
    for block in blocks {
        put_block(out, block)?;
    }
    Ok(())
}

// Adds what stands before the blocks of a partition: its key, its place, and their number.
fn put_head(out: &mut Vec<u8>, key: &[u8], place: u64, count: u32) -> Result<(), Mem>
    requires { length key.now < 2 ^ 16 }
    ensures written { OnOk result (out.new.items ≡ out.old.items ++ (bytes16 key.now ++ (u64 place ++ u32 count))) }
    ensures length { OnOk result (vec_len out.new ≡ vec_len out.old + (2 + length key.now + 12)) }
    ensures kept { OnErr result (take (vec_len out.old) out.new.items ≡ out.old.items) }
    ensures full { OnErr result (vec_capacity out.old < vec_len out.old + (2 + length key.now + 12)) }
    ensures capacity { vec_capacity out.old ≤ vec_capacity out.new }
{
    put_bytes16(out, key)?;
    put_u64(out, place)?;
    put_u32(out, count)
}

// Adds a partition.
#[tactic(auto, using(crate::proofs::Lengths::head_long))]
fn put_partition(out: &mut Vec<u8>, partition: &PartitionEntry) -> Result<(), Mem>
    requires { HasRooms partition.now }
    ensures written { OnOk result (out.new.items ≡ out.old.items ++ partition_bytes partition.now) }
    ensures length { OnOk result (vec_len out.new ≡ vec_len out.old + length (partition_bytes partition.now)) }
    ensures kept { OnErr result (take (vec_len out.old) out.new.items ≡ out.old.items) }
    ensures full { OnErr result (vec_capacity out.old < vec_len out.old + length (partition_bytes partition.now)) }
    ensures capacity { vec_capacity out.old ≤ vec_capacity out.new }
{
    let blocks = partition.blocks.as_slice();
    put_head(
        out,
        partition.key.as_slice(),
        partition.place,
        blocks.len() as u32,
    )?;
    put_blocks(out, blocks)
}

// Adds partitions, one after another.
fn put_partitions(out: &mut Vec<u8>, partitions: &[PartitionEntry]) -> Result<(), Mem>
    requires { All HasRooms partitions.now }
    ensures written { OnOk result (out.new.items ≡ out.old.items ++ flat_map partition_bytes partitions.now) }
    ensures length { OnOk result (vec_len out.new ≡ vec_len out.old + length (flat_map partition_bytes partitions.now)) }
    ensures kept { OnErr result (take (vec_len out.old) out.new.items ≡ out.old.items) }
    ensures full { OnErr result (vec_capacity out.old < vec_len out.old + length (flat_map partition_bytes partitions.now)) }
    ensures capacity { vec_capacity out.old ≤ vec_capacity out.new }
{
    for partition in partitions {
        put_partition(out, partition)?;
    }
    Ok(())
}

// Adds the partitions after their number.
fn put_all(out: &mut Vec<u8>, partitions: &[PartitionEntry]) -> Result<(), Mem>
    requires few { length partitions.now < 2 ^ 32 }
    requires rooms { All HasRooms partitions.now }
    ensures written { OnOk result (out.new.items ≡ out.old.items ++ index_bytes partitions.now) }
    ensures length { OnOk result (vec_len out.new ≡ vec_len out.old + length (index_bytes partitions.now)) }
    ensures kept { OnErr result (take (vec_len out.old) out.new.items ≡ out.old.items) }
    ensures full { OnErr result (vec_capacity out.old < vec_len out.old + length (index_bytes partitions.now)) }
    ensures capacity { vec_capacity out.old ≤ vec_capacity out.new }
{
    put_u32(out, partitions.len() as u32)?;
    put_partitions(out, partitions)
}

/// Adds the index of these partitions, whose numbers and lengths have room in their fields; who
/// writes a file needn't know more of them.
pub fn put_entries(out: &mut Vec<u8>, partitions: &[PartitionEntry]) -> Result<(), Mem>
    requires few { length partitions.now < 2 ^ 32 }
    requires rooms { All HasRooms partitions.now }
    ensures written { OnOk result (out.new.items ≡ out.old.items ++ index_bytes partitions.now) }
    ensures length { OnOk result (vec_len out.new ≡ vec_len out.old + length (index_bytes partitions.now)) }
    ensures unchanged { OnErr result (out.new.items ≡ out.old.items) }
    ensures full { OnErr result (vec_capacity out.old < vec_len out.old + length (index_bytes partitions.now)) }
    ensures capacity { vec_capacity out.old ≤ vec_capacity out.new }
{
    let start = out.len();
    let result = put_all(out, partitions);
    if result.is_err() {
        out.truncate(start);
    }
    result
}

/// Adds an index.
pub fn put_index(out: &mut Vec<u8>, index: &PartitionIndex) -> Result<(), Mem>
    ensures written { OnOk result (out.new.items ≡ out.old.items ++ index_bytes index.now.partitions) }
    ensures length { OnOk result (vec_len out.new ≡ vec_len out.old + length (index_bytes index.now.partitions)) }
    ensures unchanged { OnErr result (out.new.items ≡ out.old.items) }
    ensures full { OnErr result (vec_capacity out.old < vec_len out.old + length (index_bytes index.now.partitions)) }
    ensures capacity { vec_capacity out.old ≤ vec_capacity out.new }
{
    put_entries(out, index.as_slice())
}
