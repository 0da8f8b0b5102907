//! One partition of several memtables, merged into a table file.

ghost use Rattle.std.specs.Prelude.{◌≡◌, true, List as ListOf, map, None, Ok, OnOk, IfOk, IfErr, IsErrOf};
ghost use Rattle.std.specs.Arc.{arc_value};
ghost use Rattle.cas_types.specs.declared.schema.Column.{Column as ColumnOf};
ghost use Rattle.cas_bounds.specs.ClusteringOrder.{clustering_order};
ghost use Rattle.cas_atoms.specs.declared.atom.Mutation.{Mutation as Wrote};
ghost use Rattle.cas_disk.specs.Counts.{Counted};
ghost use Rattle.cas_tables.specs.Contents.{Partition as PartitionOf};
ghost use Rattle.cas_memtable.specs.Kept.{HoldMutations, has_key};
ghost use Rattle.cas_sstwrite.specs.Writers.{Writes, contents_of, fault_of as fault_in};
ghost use Rattle.cas_flush.specs.Inner.Keys.{IsWhole, end_at, told, WritesKey, KeyFault};

use cas_bounds::{Cut, RowOrder, Slice, Values, clustering_order};
use cas_disk::Draft;
use cas_memtable::{MemPart, sources_of};
use cas_merge::Merger;
use cas_sstwrite::{PartitionFault, TableWriter, WriteFault};
use cas_types::{Bytes, Column};
use std::alloc::{AllocError, Global};
use std::mem::drop;
use std::sync::Arc;

// One end of a partition.
fn end_at(alloc: Global, order: RowOrder, after: bool) -> Cut
    ensures { result ≡ end_at order after }
{
    Cut {
        prefix: Values::from_vec(Vec::new(alloc)),
        after,
        order,
    }
}

/// All rows of a partition.
pub(crate) fn whole(alloc: Global, columns: &[Column]) -> Result<Slice, AllocError>
    ensures { IfOk result (IsWhole columns.now) }
{
    let lo = end_at(alloc, clustering_order(alloc, columns)?, false);
    let hi = end_at(alloc, clustering_order(alloc, columns)?, true);
    Ok(Slice { lo, hi })
}

/// What a writer's fault tells; a source in memory has none but that memory ran out.
pub(crate) fn fault_of(fault: PartitionFault<AllocError>) -> WriteFault
    ensures { result ≡ told fault }
{
    match fault {
        PartitionFault::Write(fault) => fault,
        PartitionFault::Source(_) => WriteFault::Mem,
    }
}

/// Writes what the memtables have under a key behind the partitions that were written.
pub(crate) fn write_key<D: Draft>(
    alloc: Global,
    writer: &mut TableWriter<D, AllocError>,
    memtables: &[Arc<MemPart, Global>],
    key: &Bytes,
    slice: &Slice,
    tally: &mut D::Tally,
) -> Result<(), WriteFault>
    requires sound { fault_in writer.old ≡ None }
    requires there { has_key (map arc_value memtables.now) key.now ≡ true }
    ensures written { OnOk result ((columns : ListOf ColumnOf) (wss : ListOf (ListOf Wrote)) (ps : ListOf PartitionOf)
        → HoldMutations columns (map arc_value memtables.now) wss → IsWhole columns slice.now → Writes D.number D.written columns writer.old ps
        → WritesKey D.number D.written columns writer.new ps key.now (map arc_value memtables.now)) }
    ensures sound { OnOk result (fault_in writer.new ≡ None) }
    ensures kept { OnOk result ((writer.new.header ≡ writer.old.header) × (writer.new.level ≡ writer.old.level)) }
    ensures why { IfErr result (λ e. (columns : ListOf ColumnOf) (wss : ListOf (ListOf Wrote)) (ps : ListOf PartitionOf)
        → HoldMutations columns (map arc_value memtables.now) wss → IsWhole columns slice.now → Writes D.number D.written columns writer.old ps
        → KeyFault columns (contents_of writer.old ps) key.now (map arc_value memtables.now) e) }
    ensures count { Counted (D.Tally.number tally.old) (D.Tally.number tally.new) (IsErrOf result WriteFault.Failed) }
{
    let sources = sources_of(alloc, memtables, key, slice)?;
    let mut merged = Merger::new(sources);
    match writer.partition(key.as_slice(), &mut merged, tally) {
        Ok(()) => {
            drop(merged);
            Ok(())
        }
        Err(fault) => {
            drop(merged);
            Err(fault_of(fault))
        }
    }
}
