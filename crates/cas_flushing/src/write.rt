//! What is frozen of a table in a shard is written to a table file.

ghost use Rattle.std.specs.Prelude.{◌≡◌, ◌≤◌, ℕ, false, [], List as ListOf, None, Ok, length, slice_get, IfOk, IfErr, IfSome, IsErrOf};
ghost use Rattle.cas_atoms.specs.declared.atom.Mutation.{Mutation as Wrote};
ghost use Rattle.cas_disk.specs.Counts.{Counted};
ghost use Rattle.cas_info.specs.declared.info.TheConstants.{FILE_NUMBER_LIMIT};
ghost use Rattle.cas_tables.specs.declared.header.TheConstants.{LAST_SHARD};
ghost use Rattle.cas_memtable.specs.Kept.{HoldJust, has_key};
ghost use Rattle.cas_flush.specs.Flushed.{FlushFault};
ghost use Rattle.cas_shard.specs.Flushing.{frozen_at, memtables_at};
ghost use Rattle.cas_flushing.specs.Flushed.{Flushes, head_of};

use cas_disk::{Draft, Sealed};
use cas_flush::flush_parts;
use cas_fragments::Version;
use cas_info::TableInfo;
use cas_shard::Shard;
use cas_sstwrite::WriteFault;
use cas_tables::Header;
use cas_types::TableSchema;
use std::alloc::Global;

/// Writes the frozen memtables of a table, in the shard at this index of the store, to a file of that number, in
/// a draft that has taken nothing and has the number: gives what is told of the file, and the draft, which is
/// synced. None where they hold nothing. The shard stays as it is, and goes on to be read.
pub fn write_frozen<S: Sealed, D: Draft>(
    alloc: Global,
    shard: &Shard<S>,
    table: &TableSchema,
    index: u8,
    number: u64,
    draft: D,
    tally: &mut D::Tally,
) -> Result<Option<(TableInfo, D)>, WriteFault>
    requires index { index ≤ LAST_SHARD }
    requires number { (1 ≤ number) × (number ≤ FILE_NUMBER_LIMIT) }
    ensures written { IfOk result (λ r. (ws : ListOf Wrote) → HoldJust table.now.columns (memtables_at (slice_get shard.now.stores table.now.number)) ws
        → D.number draft ≡ number → ((bytes : ListOf ℕ) → D.written draft bytes → bytes ≡ [])
        → Flushes D.number D.written table.now index number (frozen_at (slice_get shard.now.stores table.now.number)) r) }
    ensures synced { IfOk result (λ r. IfSome r (λ p. D.is_synced p.1)) }
    ensures some { IfOk result (λ r. IfSome r (λ p. 1 ≤ length (frozen_at (slice_get shard.now.stores table.now.number)))) }
    ensures nothing { ((key : ListOf ℕ) → has_key (frozen_at (slice_get shard.now.stores table.now.number)) key ≡ false)
        → (result ≡ Ok None) × (tally.new ≡ tally.old) }
    ensures why { IfErr result (λ e. (ws : ListOf Wrote) → HoldJust table.now.columns (memtables_at (slice_get shard.now.stores table.now.number)) ws
        → D.number draft ≡ number → ((bytes : ListOf ℕ) → D.written draft bytes → bytes ≡ [])
        → FlushFault table.now.columns (head_of table.now index number) (frozen_at (slice_get shard.now.stores table.now.number)) e) }
    ensures count { Counted (D.Tally.number tally.old) (D.Tally.number tally.new) (IsErrOf result WriteFault.Failed) }
{
    let header = Header {
        version: Version::Second,
        table: table.number,
        shard: index,
        number,
    };
    let memtables = shard.frozen(table.number);
    flush_parts(
        alloc,
        memtables,
        table.columns.as_slice(),
        header,
        draft,
        tally,
    )
}
