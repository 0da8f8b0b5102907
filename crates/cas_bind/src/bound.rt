//! What a statement is to do, once its names and constants are those of a table.

use cas_atoms::Query;
use cas_define::Addition;
use cas_effects::BoundWrite;
use cas_types::TableSchema;

/// The limits that a store was opened with: its number of shards, the bytes of a log segment and of
/// a memtable, and how many compactors there are.
#[derive(Clone, Copy)]
pub struct Limits {
    pub shards: u8,
    pub segment: u64,
    pub memtable: u64,
    pub compactors: u8,
}

/// What a statement is to do.
#[derive(Drop)]
pub enum Bound {
    Create(TableSchema),
    Alter(Addition),
    Write(BoundWrite),
    Read(BoundRead),
}

/// A SELECT of one partition, which lies in the shard.
#[derive(Drop)]
pub struct BoundRead {
    pub shard: u8,
    pub query: Query,
}
