//! What is found in a table file that is loaded; nothing of the file is read.

ghost use Rattle.std.specs.Prelude.{◌≡◌, ◌+◌, ◌<◌, ℕ, Some, None, false, length, slice_get, Option, is_some, IfSome};
ghost use Rattle.std.specs.List.{AllByRecursion};
ghost use Rattle.std.specs.Option.{option_copied};
ghost use Rattle.cas_bounds.specs.ClusteringOrder.{clustering_order};
ghost use Rattle.cas_filter.specs.Filters.{may_hold};
ghost use Rattle.cas_index.specs.declared.entries.PartitionEntry.{PartitionEntry};
ghost use Rattle.cas_index.specs.Searches.{HasKey, IsSliceOf, IsBlockFor};
ghost use Rattle.cas_sstread.specs.Searches.{HasOwnFilter, IsFound, IsNextKey, place_or, IsWithin};
ghost use Rattle.cas_sstread.specs.Inner.Within.{StandsBefore};

use crate::table::Table;
use cas_bounds::Slice;
use cas_disk::Sealed;
use cas_index::{BlockAt, PartitionEntry};

impl<F: Sealed> Table<F> {
    // The partitions; each stands before the place where all of them end.
    fn partitions(&self) -> &[PartitionEntry]
        ensures partitions { result.now ≡ self.now.kept.partitions }
        ensures before { AllByRecursion (StandsBefore self.now.kept.end) self.now.kept.partitions }
    {
        self.parts.index.as_slice()
    }

    // Whether the filter doesn't say no.
    fn may_hold(&self, key: &[u8]) -> bool
        ensures { result ≡ may_hold self.now.kept.filter key.now }
    {
        self.parts.filter.may_hold(key)
    }

    // What the index says.
    #[tactic(auto, using(cas_index::proofs::SearchLaws::key_within))]
    fn find_in_index(&self, key: &[u8]) -> Option<u32>
        ensures has { HasKey self.now.kept.partitions key.now result }
        ensures within { IfSome result (λ n. n < length self.now.kept.partitions) }
    {
        match self.parts.index.find(key) {
            Some(number) => Some(number),
            None => None,
        }
    }

    // That nothing has a key which the filter denies, if it is that of the keys.
    fn denied(&self, key: &[u8]) -> Option<u32>
        requires { may_hold self.now.kept.filter key.now ≡ false }
        ensures none { result ≡ None }
        ensures exact { HasOwnFilter self.now.kept → HasKey self.now.kept.partitions key.now result }
    {
        None
    }

    /// The number of the partition that has the key; none where no partition has it. The filter is
    /// asked first.
    pub fn find(&self, key: &[u8]) -> Option<u32>
        ensures found { IsFound self.now.kept key.now result }
        ensures exact { HasOwnFilter self.now.kept → HasKey self.now.kept.partitions key.now result }
        ensures within { IfSome result (λ n. n < length self.now.kept.partitions) }
    {
        if self.may_hold(key) {
            self.find_in_index(key)
        } else {
            self.denied(key)
        }
    }

    /// Whether a partition has the key.
    pub fn has(&self, key: &[u8]) -> bool
        ensures { (answer : Option ℕ) × IsFound self.now.kept key.now answer × (result ≡ is_some answer) }
    {
        self.find(key).is_some()
    }

    /// The place of the partition in the file.
    pub fn place(&self, partition: u32) -> u64
        requires { partition < length self.now.kept.partitions }
        ensures place { (p : PartitionEntry) → slice_get self.now.kept.partitions partition ≡ Some p → result ≡ p.place }
        ensures within { IsWithin self.now.kept result }
    {
        self.partitions()[partition as usize].place
    }

    /// The place where the partition ends: that of the next one, or where all of them end.
    pub fn place_behind(&self, partition: u32) -> u64
        requires { partition < length self.now.kept.partitions }
        ensures { result ≡ place_or self.now.kept.end (slice_get self.now.kept.partitions (partition + 1)) }
    {
        match self.partitions().get(partition as usize + 1) {
            Some(next) => next.place,
            None => self.parts.end,
        }
    }

    /// The block of the partition with which a read of the slice begins, and the range deletion in
    /// force before its first fragment; none where no block can hold something of the slice.
    pub fn block_at(&self, partition: u32, slice: &Slice) -> Option<BlockAt>
        requires there { partition < length self.now.kept.partitions }
        requires one { IsSliceOf (clustering_order self.now.columns) slice.now }
        ensures block { (p : PartitionEntry) → slice_get self.now.kept.partitions partition ≡ Some p → IsBlockFor slice.now p.blocks result }
        ensures within { IfSome result (λ at. IsWithin self.now.kept at.place) }
    {
        let _partitions = self.partitions();
        self.parts.index.block_for(partition, slice)
    }

    /// The first key above the one that is given, or the first of all; none where none is above.
    pub fn next_key(&self, after: Option<&[u8]>) -> Option<&[u8]>
        ensures { IsNextKey self.now.kept.partitions (option_copied after.entry) (option_copied result) }
    {
        match self.parts.index.next_after(after) {
            Some(number) => Some(self.partitions()[number as usize].key.as_slice()),
            None => None,
        }
    }
}
