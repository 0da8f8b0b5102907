//! Atoms, the least that a statement writes or deletes, and the mutations that carry them.

ghost use Rattle.std.specs.Prelude.{◌≡◌, IfOk};

use cas_bounds::{Clustering, Cut};
use cas_cell::{Cell, Deletion, Liveness};
use cas_types::{Bytes, List, TypeTag};
use std::alloc::AllocError;

/// A column by its number in the table, with the type that orders its paths: the type of a set's
/// elements or of a map's keys. Lists and plain columns have none.
#[derive(Clone, Copy)]
pub struct ColumnRef {
    pub number: u16,
    pub path: Option<TypeTag>,
}

/// The least that a statement writes or deletes in a partition. A path is an element of a set, a
/// key of a map, the place of an element of a list, and empty for a plain column.
#[derive(Drop)]
pub enum Atom {
    PartitionDeletion(Deletion),
    /// What stands past the first cut and not past the second.
    RangeDeletion(Cut, Cut, Deletion),
    RowDeletion(Clustering, Deletion),
    CollectionDeletion(Clustering, ColumnRef, Deletion),
    /// What an `INSERT` leaves of the row itself.
    Live(Clustering, Liveness),
    Write(Clustering, ColumnRef, Bytes, Cell),
    StaticWrite(ColumnRef, Bytes, Cell),
    StaticCollectionDeletion(ColumnRef, Deletion),
}

impl Atom {
    /// A copy of the atom.
    pub fn copied(&self) -> Result<Self, AllocError>
        ensures { IfOk result (λ a. a ≡ self.now) }
    {
        Ok(match self {
            Atom::PartitionDeletion(d) => Atom::PartitionDeletion(*d),
            Atom::RangeDeletion(lo, hi, d) => Atom::RangeDeletion(lo.copied()?, hi.copied()?, *d),
            Atom::RowDeletion(c, d) => Atom::RowDeletion(c.copied()?, *d),
            Atom::CollectionDeletion(c, column, d) => {
                Atom::CollectionDeletion(c.copied()?, *column, *d)
            }
            Atom::Live(c, l) => Atom::Live(c.copied()?, *l),
            Atom::Write(c, column, path, cell) => {
                Atom::Write(c.copied()?, *column, path.clone()?, cell.copied()?)
            }
            Atom::StaticWrite(column, path, cell) => {
                Atom::StaticWrite(*column, path.clone()?, cell.copied()?)
            }
            Atom::StaticCollectionDeletion(column, d) => {
                Atom::StaticCollectionDeletion(*column, *d)
            }
        })
    }
}

/// What one statement does to one partition: the table, the shard, its number in the shard, whether
/// its timestamp was drawn, the timestamp in microseconds, the moment in seconds, the partition
/// key, and the atoms.
#[derive(Drop)]
pub struct Mutation {
    pub table: u16,
    pub shard: u8,
    pub number: u64,
    pub drawn: bool,
    pub at: i64,
    pub moment: i64,
    pub key: Bytes,
    pub atoms: List<Atom>,
}
