//! What a read finds in the index.

ghost use Rattle.std.specs.Prelude.{◌≡◌, ◌<◌, ◌≤◌, ◌^◌, not, true, false, length, slice_get, Some, None};
ghost use Rattle.std.specs.List.Sorted.{IsPartitionPoint};
ghost use Rattle.std.specs.Option.{option_copied};
ghost use Rattle.std.specs.Ordering.{is_lt, is_gt};
ghost use Rattle.cas_types.specs.Values.{bytes_cmp};
ghost use Rattle.cas_bounds.specs.Points.{side};
ghost use Rattle.cas_bounds.specs.Cuts.{cut_cmp};
ghost use Rattle.cas_index.specs.declared.entries.PartitionEntry.{PartitionEntry};
ghost use Rattle.cas_index.specs.Searches.{IsFirst, HasKey, IsNextAfter, IsSliceOf, can_meet, IsBlockFor};
ghost use Rattle.cas_index.specs.Inner.Rooms.{KeysAscend, BlocksInOrder};

use crate::entries::{BlockAt, BlockEntry, PartitionEntry};
use crate::index::PartitionIndex;
use cas_bounds::{Cut, End, Slice, compare_points};
use cas_types::compare_bytes;
use std::cmp::Ordering;

// Whether the partition's key stands below the key.
fn is_below(partition: &PartitionEntry, key: &[u8]) -> bool
    ensures { result ≡ is_lt (bytes_cmp partition.now.key key.now) }
{
    compare_bytes(partition.key.as_slice(), key).is_lt()
}

// Whether it doesn't stand above the key.
fn is_upto(partition: &PartitionEntry, key: &[u8]) -> bool
    ensures { result ≡ not (is_gt (bytes_cmp partition.now.key key.now)) }
{
    !compare_bytes(partition.key.as_slice(), key).is_gt()
}

// How many partitions stand below the key.
fn count_below(partitions: &[PartitionEntry], key: &[u8]) -> usize
    requires { KeysAscend partitions.now }
    ensures { IsPartitionPoint (λ p. is_lt (bytes_cmp p.key key.now) ≡ true) (λ p. is_lt (bytes_cmp p.key key.now) ≡ false) partitions.now result }
{
    partitions.partition_point(|p| is_below(p, key))
}

// How many don't stand above it.
fn count_upto(partitions: &[PartitionEntry], key: &[u8]) -> usize
    requires { KeysAscend partitions.now }
    ensures { IsPartitionPoint (λ p. not (is_gt (bytes_cmp p.key key.now)) ≡ true) (λ p. not (is_gt (bytes_cmp p.key key.now)) ≡ false) partitions.now result }
{
    partitions.partition_point(|p| is_upto(p, key))
}

// The number of the partition that has the key.
fn number_of(partitions: &[PartitionEntry], key: &[u8]) -> Option<usize>
    requires { KeysAscend partitions.now }
    ensures { HasKey partitions.now key.now result }
{
    let number = count_below(partitions, key);
    let partition = partitions.get(number)?;
    if compare_bytes(partition.key.as_slice(), key).is_eq() {
        Some(number)
    } else {
        None
    }
}

// The number of the first partition above the key.
#[tactic(auto, using(crate::proofs::SearchLaws::next_key, crate::proofs::SearchLaws::no_next_key))]
fn number_above(partitions: &[PartitionEntry], key: &[u8]) -> Option<usize>
    requires { KeysAscend partitions.now }
    ensures { IsNextAfter partitions.now (Some key.now) result }
{
    let number = count_upto(partitions, key);
    if number < partitions.len() {
        Some(number)
    } else {
        None
    }
}

// The number of the first partition.
#[tactic(auto, using(crate::proofs::SearchLaws::first_key, crate::proofs::SearchLaws::no_first_key))]
fn first_number(partitions: &[PartitionEntry]) -> Option<usize>
    ensures { IsNextAfter partitions.now None result }
{
    if 0 < partitions.len() { Some(0) } else { None }
}

// The number of the first partition above the key, if one is given.
fn number_after(partitions: &[PartitionEntry], key: Option<&[u8]>) -> Option<usize>
    requires { KeysAscend partitions.now }
    ensures { IsNextAfter partitions.now (option_copied key.entry) result }
{
    match key {
        Some(key) => number_above(partitions, key),
        None => first_number(partitions),
    }
}

// The side on which a cut stands.
fn side(after: bool) -> End
    ensures { result ≡ side after }
{
    if after { End::After } else { End::Before }
}

// The order of two cuts, by that of the first one's table.
fn compare_cuts(a: &Cut, b: &Cut) -> Ordering
    ensures { result ≡ cut_cmp a.now b.now }
{
    compare_points(
        a.order.as_slice(),
        side(a.after),
        a.prefix.as_slice(),
        side(b.after),
        b.prefix.as_slice(),
    )
}

/// Whether the block doesn't begin above the cut.
pub(crate) fn begins_upto(block: &BlockEntry, cut: &Cut) -> bool
    ensures { result ≡ not (is_gt (cut_cmp block.now.cut cut.now)) }
{
    !compare_cuts(&block.cut, cut).is_gt()
}

// How many blocks don't begin above the cut.
fn count_begun(blocks: &[BlockEntry], cut: &Cut) -> usize
    requires { BlocksInOrder cut.now.order blocks.now }
    ensures bound { result ≤ length blocks.now }
    ensures point { IsPartitionPoint (λ b. not (is_gt (cut_cmp b.cut cut.now)) ≡ true) (λ b. not (is_gt (cut_cmp b.cut cut.now)) ≡ false) blocks.now result }
{
    blocks.partition_point(|b| begins_upto(b, cut))
}

// The number of the first block that can hold something of the slice.
fn number_for(blocks: &[BlockEntry], slice: &Slice) -> Option<usize>
    requires ordered { BlocksInOrder slice.now.lo.order blocks.now }
    requires one { slice.now.hi.order ≡ slice.now.lo.order }
    ensures { IsFirst (can_meet slice.now blocks.now) (length blocks.now) result }
{
    if !compare_cuts(&slice.lo, &slice.hi).is_lt() {
        return None;
    }
    let number = count_begun(blocks, &slice.lo).saturating_sub(1);
    let block = blocks.get(number)?;
    if compare_cuts(&block.cut, &slice.hi).is_lt() {
        Some(number)
    } else {
        None
    }
}

// That block.
fn block_in(blocks: &[BlockEntry], slice: &Slice) -> Option<BlockAt>
    requires ordered { BlocksInOrder slice.now.lo.order blocks.now }
    requires one { slice.now.hi.order ≡ slice.now.lo.order }
    requires few { length blocks.now < 2 ^ 32 }
    ensures { IsBlockFor slice.now blocks.now result }
{
    match number_for(blocks, slice) {
        Some(number) => {
            let block = &blocks[number];
            Some(BlockAt {
                number: number as u32,
                place: block.place,
                in_force: block.in_force,
            })
        }
        None => None,
    }
}

impl PartitionIndex {
    /// The number of the partition that has the key; none where no partition has it.
    pub fn find(&self, key: &[u8]) -> Option<u32>
        ensures { HasKey self.now.partitions key.now result }
    {
        match number_of(self.as_slice(), key) {
            Some(number) => Some(number as u32),
            None => None,
        }
    }

    /// The number of the first partition whose key stands above the key, or of the first one where
    /// none is given.
    pub fn next_after(&self, key: Option<&[u8]>) -> Option<u32>
        ensures { IsNextAfter self.now.partitions (option_copied key.entry) result }
    {
        match number_after(self.as_slice(), key) {
            Some(number) => Some(number as u32),
            None => None,
        }
    }

    /// The block with which a read of the slice begins: the first one of the partition that can
    /// hold something of it.
    pub fn block_for(&self, partition: u32, slice: &Slice) -> Option<BlockAt>
        requires there { partition < length self.now.partitions }
        requires one { IsSliceOf self.now.order slice.now }
        ensures { (p : PartitionEntry) → slice_get self.now.partitions partition ≡ Some p → IsBlockFor slice.now p.blocks result }
    {
        let partitions = self.as_slice();
        block_in(partitions[partition as usize].blocks.as_slice(), slice)
    }
}
