//! A table's file, as its partitions are read.

ghost use Rattle.std.specs.Prelude.{◌≡◌, ◌≤◌, ◌^◌};
ghost use Rattle.cas_types.specs.Limits.{IsNarrow};
ghost use Rattle.cas_bounds.specs.ClusteringOrder.{clustering_order};

use crate::fault::TableFault;
use cas_bounds::RowOrder;
use cas_disk::Sealed;
use cas_fragments::Version;
use cas_types::Column;
use std::alloc::Global;

/// A table's file of some number and version: its partitions end at a place, and its table has these
/// columns, by which it orders its rows. Nothing is read at that end or behind it.
#[derive(Drop)]
pub struct TableFile<'a, F: Sealed> {
    pub(crate) alloc: Global,
    pub(crate) sealed: &'a F,
    pub(crate) number: u64,
    pub(crate) version: Version,
    pub(crate) end: u64,
    pub(crate) order: &'a RowOrder,
    pub(crate) columns: &'a [Column],
    ghost within: { end ≤ 2 ^ 62 },
    ghost ordered: { order.now ≡ clustering_order columns.now },
    ghost narrow: { IsNarrow columns.now },
}

impl<'a, F: Sealed> TableFile<'a, F> {
    /// The file of that number and version, whose partitions end at that place.
    pub fn new(
        alloc: Global,
        sealed: &'a F,
        number: u64,
        version: Version,
        end: u64,
        order: &'a RowOrder,
        columns: &'a [Column],
    ) -> Self
        requires within { end ≤ 2 ^ 62 }
        requires ordered { order.now ≡ clustering_order columns.now }
        requires narrow { IsNarrow columns.now }
        ensures sealed { result.sealed.now ≡ sealed.entry.now }
        ensures number { result.number ≡ number }
        ensures version { result.version ≡ version }
        ensures end { result.end ≡ end }
        ensures order { result.order.now ≡ order.entry.now }
        ensures columns { result.columns.now ≡ columns.entry.now }
    {
        TableFile {
            alloc,
            sealed,
            number,
            version,
            end,
            order,
            columns,
        }
    }

    // What stands at that place is no block of the table.
    pub(crate) fn bad_block(&self, at: u64) -> TableFault
        ensures { result ≡ TableFault.BadBlock self.now.number at }
    {
        TableFault::BadBlock {
            number: self.number,
            at,
        }
    }
}
