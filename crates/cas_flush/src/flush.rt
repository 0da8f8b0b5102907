//! A flush: what memtables hold becomes a table file.

ghost use Rattle.std.specs.Prelude.{◌≡◌, ◌≤◌, ℕ, true, false, [], List as ListOf, map, None, Ok, Option, OnOk, IfOk, IfErr, IfSome, IsErrOf};
ghost use Rattle.std.specs.Arc.{arc_value};
ghost use Rattle.cas_types.specs.declared.schema.Column.{Column as ColumnOf};
ghost use Rattle.cas_atoms.specs.declared.atom.Mutation.{Mutation as Wrote};
ghost use Rattle.cas_disk.specs.Counts.{Counted};
ghost use Rattle.cas_tables.specs.Allowed.{FitsHeader};
ghost use Rattle.cas_tables.specs.Contents.{Partition as PartitionOf};
ghost use Rattle.cas_fragments.specs.declared.heads.Version.TheVariants.{Second};
ghost use Rattle.cas_memtable.specs.Kept.{HoldMutations, has_key};
ghost use Rattle.cas_sstwrite.specs.Writers.{Writes, fault_of as fault_in};
ghost use Rattle.cas_sstwrite.specs.Finished.{Finishes};
ghost use Rattle.cas_flush.specs.Flushed.{SayWhatIsHeld, any, at_level_0, FlushFault};
ghost use Rattle.cas_flush.specs.Inner.Keys.{IsWhole, StopsAt};

use crate::key::{fault_of, whole, write_key};
use cas_bounds::Slice;
use cas_disk::Draft;
use cas_info::TableInfo;
use cas_memtable::{MemPart, next_key};
use cas_sstwrite::{TableWriter, WriteFault};
use cas_tables::Header;
use cas_types::{Bytes, Column};
use std::alloc::{AllocError, Global};
use std::mem::drop;
use std::sync::Arc;

// A new table file stands in the first level.
const FIRST_LEVEL: u8 = 0;

// Writes what the memtables have, key by key.
fn write_keys<D: Draft>(
    alloc: Global,
    writer: &mut TableWriter<D, AllocError>,
    memtables: &[Arc<MemPart, Global>],
    slice: &Slice,
    tally: &mut D::Tally,
) -> Result<(), WriteFault>
    requires sound { fault_in writer.old ≡ None }
    ensures written { OnOk result ((columns : ListOf ColumnOf) (wss : ListOf (ListOf Wrote)) → HoldMutations columns (map arc_value memtables.now) wss
        → IsWhole columns slice.now → Writes D.number D.written columns writer.old []
        → (ps : ListOf PartitionOf) × SayWhatIsHeld columns (map arc_value memtables.now) any ps × Writes D.number D.written columns writer.new ps) }
    ensures sound { OnOk result (fault_in writer.new ≡ None) }
    ensures kept { OnOk result ((writer.new.header ≡ writer.old.header) × (writer.new.level ≡ writer.old.level)) }
    ensures why { IfErr result (λ e. (columns : ListOf ColumnOf) (wss : ListOf (ListOf Wrote)) → HoldMutations columns (map arc_value memtables.now) wss
        → IsWhole columns slice.now → Writes D.number D.written columns writer.old []
        → StopsAt columns writer.old.header writer.old.level (map arc_value memtables.now) e) }
    ensures count { Counted (D.Tally.number tally.old) (D.Tally.number tally.new) (IsErrOf result WriteFault.Failed) }
{
    let mut last: Option<&Bytes> = None;
    while let Some(key) = next_key(memtables, last) {
        write_key(alloc, writer, memtables, key, slice, tally)?;
        last = Some(key);
    }
    Ok(())
}

/// Writes memtables of one table and shard, whose columns are these, to a file of the first level, in
/// a draft that has taken nothing and has the number of the header: gives what is told of the file,
/// and the draft, which is synced. None, and no call of the draft, where nothing is held.
pub fn flush_parts<D: Draft>(
    alloc: Global,
    memtables: &[Arc<MemPart, Global>],
    columns: &[Column],
    header: Header,
    draft: D,
    tally: &mut D::Tally,
) -> Result<Option<(TableInfo, D)>, WriteFault>
    requires header { FitsHeader header }
    requires version { header.version ≡ Second }
    ensures written { IfOk result (λ r. D.number draft ≡ header.number → ((bytes : ListOf ℕ) → D.written draft bytes → bytes ≡ [])
        → (wss : ListOf (ListOf Wrote)) → HoldMutations columns.now (map arc_value memtables.now) wss
        → (ps : ListOf PartitionOf) × SayWhatIsHeld columns.now (map arc_value memtables.now) any ps
        × Finishes D.number D.written columns.now (at_level_0 header ps) r) }
    ensures synced { IfOk result (λ r. IfSome r (λ p. D.is_synced p.1)) }
    ensures nothing { ((key : ListOf ℕ) → has_key (map arc_value memtables.now) key ≡ false) → (result ≡ Ok None) × (tally.new ≡ tally.old) }
    ensures why { IfErr result (λ e. D.number draft ≡ header.number → ((bytes : ListOf ℕ) → D.written draft bytes → bytes ≡ [])
        → (wss : ListOf (ListOf Wrote)) → HoldMutations columns.now (map arc_value memtables.now) wss
        → FlushFault columns.now header (map arc_value memtables.now) e) }
    ensures count { Counted (D.Tally.number tally.old) (D.Tally.number tally.new) (IsErrOf result WriteFault.Failed) }
{
    if next_key(memtables, None).is_none() {
        return Ok(None);
    }
    let slice = whole(alloc, columns)?;
    let mut writer = TableWriter::begin(alloc, draft, header, FIRST_LEVEL, tally)?;
    write_keys(alloc, &mut writer, memtables, &slice, tally)?;
    drop(slice);
    match writer.finish(tally) {
        Ok(finished) => Ok(finished),
        Err(fault) => Err(fault_of(fault)),
    }
}
