//! The index of a table file in memory.

ghost use Rattle.std.specs.Prelude.{◌≡◌, ◌<◌, ◌++◌, ◌∷◌, [], None, length, OnOk, OnErr};
ghost use Rattle.std.specs.List.{last_or};
ghost use Rattle.cas_info.specs.declared.info.TheConstants.{PARTITION_LIMIT};
ghost use Rattle.cas_index.specs.Entries.{Index};
ghost use Rattle.cas_index.specs.Allowed.{IsNextPartition, AreEntries};

use crate::entries::PartitionEntry;
use cas_bounds::RowOrder;
use cas_types::Mem;
use std::alloc::Global;
use std::marker::Model;

/// The partitions of a table file by their keys, and how the table orders their rows. Contracts see
/// the two; each partition may follow the one before it.
#[derive(Drop)]
pub struct PartitionIndex {
    order: RowOrder,
    partitions: Vec<PartitionEntry>,
}

impl Model for PartitionIndex {
    ghost use Rattle.cas_index.specs.Entries.{Index};
    ghost use Rattle.cas_index.specs.Allowed.{AreEntries};

    ghost Value = { Index };

    ghost view = { λ i. record { order = i.order; partitions = i.partitions.items } };

    ghost invariant = { λ i. AreEntries i.order i.partitions.items };
}

impl PartitionIndex {
    /// The index of no partitions.
    pub fn new(alloc: Global, order: RowOrder) -> Self
        ensures { result ≡ record { order = order; partitions = [] } }
    {
        PartitionIndex {
            order,
            partitions: Vec::new(alloc),
        }
    }

    // The index of these partitions.
    pub(crate) fn of(order: RowOrder, partitions: Vec<PartitionEntry>) -> Self
        requires { AreEntries order partitions.items }
        ensures { result ≡ record { order = order; partitions = partitions.items } }
    {
        PartitionIndex { order, partitions }
    }

    /// Adds a partition, which follows those that are there.
    pub fn push(&mut self, partition: PartitionEntry) -> Result<(), Mem>
        requires room { length self.old.partitions < PARTITION_LIMIT }
        requires next { IsNextPartition self.old.order (last_or None self.old.partitions) partition }
        ensures added { OnOk result (self.new.partitions ≡ self.old.partitions ++ partition ∷ []) }
        ensures order { self.new.order ≡ self.old.order }
        ensures unchanged { OnErr result (self.new ≡ self.old) }
    {
        self.partitions.push(partition)?;
        Ok(())
    }

    /// The partitions.
    pub fn as_slice(&self) -> &[PartitionEntry]
        ensures partitions { result.now ≡ self.now.partitions }
        ensures entries { AreEntries self.now.order result.now }
    {
        &self.partitions
    }
}
