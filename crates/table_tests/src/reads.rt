//! Slices that are read of the table file by hand.

ghost use Rattle.std.specs.Prelude.{IsTrue, IfOk};
ghost use Rattle.cas_types.specs.Limits.{IsNarrow};
ghost use Rattle.cas_bounds.specs.ClusteringOrder.{clustering_order};
ghost use Rattle.cas_index.specs.Searches.{IsSliceOf};

use crate::by_hand::{FILE, load};
use cas_blocks::Blocks;
use cas_bounds::{Cut, Slice, Values};
use cas_disk::{Count, FaultCount, MemSealed};
use cas_sstread::Table;
use cas_stored::read_slice;
use cas_streams::{Fragment, FragmentSource};
use cas_types::{Bytes, COLUMN_LIMIT};
use std::alloc::{AllocError, Global};

/// What is read of a key: nothing, or the timestamp of the partition's deletion, the last byte of the
/// first row's place, and whether there is nothing behind it.
#[derive(Clone, Copy, Debug, PartialEq, Eq)]
pub(crate) enum Told {
    Nothing,
    Partition(Option<i64>, Option<u8>, bool),
    Failed,
}

/// Whether slices can be read of the table.
pub(crate) fn is_readable(table: &Table<MemSealed>) -> bool
    ensures { IsTrue result → IsNarrow table.now.columns }
{
    table.columns().len() as u64 <= COLUMN_LIMIT
}

/// The rows from the one at this value on, or those behind it.
pub(crate) fn rows_from(
    alloc: Global,
    table: &Table<MemSealed>,
    value: u8,
    after: bool,
) -> Result<Slice, AllocError>
    ensures { IfOk result (IsSliceOf (clustering_order table.now.columns)) }
{
    let value = Bytes::copy_of(alloc, &[0, 0, 0, value])?;
    let lo = Cut {
        prefix: Values::one(value),
        after,
        order: table.order().clone()?,
    };
    let hi = Cut {
        prefix: Values::from_vec(Vec::new(alloc)),
        after: true,
        order: table.order().clone()?,
    };
    Ok(Slice { lo, hi })
}

/// The last byte of a row's place.
pub(crate) fn place_of(fragment: &Fragment) -> Option<u8> {
    match fragment {
        Fragment::Row(row) => match row.clustering.values.as_slice().first() {
            Some(value) => value.as_slice().last().copied(),
            None => None,
        },
        Fragment::Static(_) => None,
        Fragment::Marker(_, _) => None,
    }
}

// What comes of a source.
fn drawn(source: Blocks<'_, MemSealed>) -> Told {
    let mut source = source;
    let deleted = match source.top() {
        Some(deletion) => Some(deletion.at),
        None => None,
    };
    let row = match source.next() {
        Ok(Some(fragment)) => place_of(&fragment),
        Ok(None) => None,
        Err(_) => return Told::Failed,
    };
    match source.next() {
        Ok(next) => Told::Partition(deleted, row, next.is_none()),
        Err(_) => Told::Failed,
    }
}

// What is read of a key in a slice.
fn read(alloc: Global, table: &Table<MemSealed>, key: u8, slice: &Slice) -> Told
    requires narrow { IsNarrow table.now.columns }
    requires one { IsSliceOf (clustering_order table.now.columns) slice.now }
{
    let mut tally = FaultCount::fresh();
    match read_slice(alloc, table, &[key], slice, &mut tally) {
        Ok(Some(source)) => drawn(source),
        Ok(None) => Told::Nothing,
        Err(_) => Told::Failed,
    }
}

/// What is read of a key, from a row on.
pub(crate) fn read_from(
    alloc: Global,
    table: &Table<MemSealed>,
    key: u8,
    value: u8,
    after: bool,
) -> Told {
    if !is_readable(table) {
        return Told::Failed;
    }
    match rows_from(alloc, table, value, after) {
        Ok(slice) => read(alloc, table, key, &slice),
        Err(_) => Told::Failed,
    }
}

#[test]
fn what_is_read(rt: HostRuntime) {
    let alloc = rt.alloc();
    let table = load(alloc, &FILE);
    assert!(rt;
        match &table {
            Ok(table) => read_from(alloc, table, 1, 0, false)
                == Told::Partition(Some(5), None, true)
                && read_from(alloc, table, 2, 0, false) == Told::Partition(None, Some(9), true)
                && read_from(alloc, table, 2, 9, false) == Told::Partition(None, Some(9), true)
                && read_from(alloc, table, 2, 9, true) == Told::Partition(None, None, true)
                && read_from(alloc, table, 3, 0, false) == Told::Nothing,
            Err(_) => false,
        }
    );
}
