//! A segment that is read.

use cas_types::TableSchema;
use std::alloc::Global;

/// A segment that is read: its number, and the tables, shards and frontiers of its store.
#[derive(Drop)]
pub(crate) struct Segment<'a> {
    pub(crate) alloc: Global,
    pub(crate) number: u64,
    pub(crate) tables: &'a [TableSchema],
    pub(crate) shards: u8,
    pub(crate) frontiers: &'a [u64],
}
