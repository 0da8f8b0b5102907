//! The entries of the manifest.

use cas_info::TableInfo;
use cas_types::{Column, List, TableSchema};

/// Table files of a table in a shard take the place of others: a flush adds one and removes none, a
/// compaction removes its inputs. `moment` is the shard's last moment in seconds, `frontier` the number
/// up to which the shard's mutations of the table stand in table files, `drawn` the last timestamp that
/// the shard drew.
#[derive(Drop)]
pub struct Change {
    pub table: u16,
    pub shard: u8,
    pub moment: i64,
    pub frontier: u64,
    pub drawn: i64,
    pub removed: List<u64>,
    pub added: List<TableInfo>,
}

/// An entry of the manifest.
#[derive(Drop)]
pub enum Entry {
    /// The store has so many shards.
    Store { shards: u8 },
    /// A table is defined.
    Schema(TableSchema),
    /// A segment of the commit log is listed.
    NewSegment { number: u64 },
    /// A segment isn't listed any more.
    DropSegment { number: u64 },
    Change(Change),
    /// A table gets columns.
    AddColumns { table: u16, columns: List<Column> },
}
