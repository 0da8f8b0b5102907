//! The table file that a flush makes, loaded and checked.

ghost use Rattle.std.specs.Prelude.{IsTrue};
ghost use Rattle.cas_types.specs.Limits.{IsNarrow};

use crate::writes::columns;
use cas_disk::{Count, Draft, FaultCount, FaultPlan, Folder, MemDraft, MemFolder, MemSealed};
use cas_flush::flush_parts;
use cas_fragments::Version;
use cas_info::{FILE_LIMIT, TableInfo};
use cas_sstread::{Table, TableFault};
use cas_stored::TableStore;
use cas_tables::Header;
use cas_types::{COLUMN_LIMIT, Column, Options, Strategy, TableSchema, Text, Unit};
use cas_verify::check;
use std::alloc::{AllocError, Global};

// The file 255 of the table 3 in the shard 1.
const HEADER: Header = Header {
    version: Version::Second,
    table: 3,
    shard: 1,
    number: 255,
};

fn schema(alloc: Global) -> Result<TableSchema, AllocError> {
    let columns = columns(alloc)?;
    Ok(TableSchema {
        number: 3,
        name: Text::from_string(String::new(alloc)),
        columns,
        options: Options {
            gc_grace_seconds: 864_000,
            default_time_to_live: 0,
            strategy: Strategy::SizeTiered,
            min_threshold: 4,
            max_threshold: 32,
            bucket_low: 50,
            bucket_high: 150,
            min_sstable_size: 52_428_800,
            sstable_size_in_mb: 160,
            fanout_size: 10,
            unit: Unit::Days,
            window: 1,
        },
    })
}

fn admitted(
    folder: &mut MemFolder,
    info: TableInfo,
    draft: MemDraft,
) -> Option<(TableInfo, MemSealed)>
    requires { ⟦<MemDraft as Draft>⟧.is_synced draft }
{
    match folder.admit(draft) {
        Ok(file) => Some((info, file)),
        Err(_) => None,
    }
}

/// The file that a flush makes of the store's frozen memtables, and what it tells of itself.
pub(crate) fn written(
    alloc: Global,
    folder: &mut MemFolder,
    store: &TableStore<MemSealed>,
) -> Option<(TableInfo, MemSealed)> {
    let (Ok(columns), Ok(draft)) = (columns(alloc), folder.draft(255)) else {
        return None;
    };
    let mut tally = FaultCount::fresh();
    let memtables = store.parts().frozen();
    match flush_parts(
        alloc,
        memtables,
        columns.as_slice(),
        HEADER,
        draft,
        &mut tally,
    ) {
        Ok(Some((info, draft))) => admitted(folder, info, draft),
        _ => None,
    }
}

// Whether the table has few columns.
fn is_narrow(columns: &[Column]) -> bool
    ensures { IsTrue result → IsNarrow columns.now }
{
    columns.len() as u64 <= COLUMN_LIMIT
}

fn found(alloc: Global, table: &Table<MemSealed>) -> Result<(), u64> {
    if !is_narrow(table.columns()) || table.info().bytes > FILE_LIMIT {
        return Err(1000);
    }
    match check(alloc, table, &mut FaultCount::fresh()) {
        Ok(()) => Ok(()),
        Err(TableFault::BadBlock { at, .. }) => Err(at),
        Err(_) => Err(1000),
    }
}

/// Where the check refuses the file of which that is told, once it is loaded, or nothing; 1000 where it isn't loaded.
pub(crate) fn checked(alloc: Global, info: &TableInfo, file: MemSealed) -> Result<(), u64> {
    let Ok(schema) = schema(alloc) else {
        return Err(1000);
    };
    if info.bytes > FILE_LIMIT {
        return Err(1000);
    }
    match Table::load(alloc, file, &schema, 1, info, &mut FaultCount::fresh()) {
        Ok(table) => found(alloc, &table),
        Err(_) => Err(1000),
    }
}
