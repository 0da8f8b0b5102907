//! What an INSERT, UPDATE or DELETE does to a partition, once its names and constants are those of a
//! table.

use cas_atoms::ColumnRef;
use cas_bounds::{Clustering, Cut};
use cas_types::{Bytes, List};

/// An INSERT, UPDATE or DELETE in one partition. Its timestamp is that of USING TIMESTAMP, and none
/// where it is to be drawn. A TTL of 0 means that nothing expires.
#[derive(Drop)]
pub struct BoundWrite {
    pub table: u16,
    pub shard: u8,
    pub key: Bytes,
    pub timestamp: Option<i64>,
    pub ttl: u32,
    pub effects: List<Effect>,
}

/// What a statement does to one row, or to one column of it. Where there is no clustering, it is the
/// static row.
#[derive(Drop)]
pub enum Effect {
    /// An INSERT of the row itself.
    Live(Clustering),
    /// A plain column is given a value, or null.
    Plain(Option<Clustering>, ColumnRef, Option<Bytes>),
    /// A collection is given these elements and no others.
    Whole(Option<Clustering>, ColumnRef, Elements),
    /// Some elements of a collection are written or deleted.
    Parts(Option<Clustering>, ColumnRef, Elements),
    /// A collection is deleted.
    Emptied(Option<Clustering>, ColumnRef),
    /// A row is deleted.
    Row(Clustering),
    /// The rows between two cuts are deleted.
    Range(Cut, Cut),
    /// The partition is deleted.
    Partition,
}

/// Elements of a collection.
#[derive(Drop)]
pub enum Elements {
    /// The elements of a set, each with no value, or the keys of a map with theirs. What is deleted
    /// has none.
    At(List<(Bytes, Option<Bytes>)>),
    /// Values after a list's end.
    Appended(List<Bytes>),
    /// Values before a list's front.
    Prepended(List<Bytes>),
}
