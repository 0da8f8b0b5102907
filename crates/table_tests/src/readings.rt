//! Slices that are read of the table file by hand one after another, through a cache of its blocks.

ghost use Rattle.std.specs.Prelude.{◌≡◌};
ghost use Rattle.cas_types.specs.Limits.{IsNarrow};
ghost use Rattle.cas_bounds.specs.ClusteringOrder.{clustering_order};
ghost use Rattle.cas_index.specs.Searches.{IsSliceOf};

use crate::by_hand::{FILE, load};
use crate::reads::{is_readable, place_of, rows_from};
use cas_bounds::Slice;
use cas_disk::MemSealed;
use cas_reading::Reading;
use cas_sstread::Table;
use cas_streams::FragmentSource;
use std::alloc::Global;

/// What is read of a key: whether it is there, the last byte of the first row's place, and how often a
/// block was read by then.
#[derive(Clone, Copy, Debug, PartialEq, Eq)]
struct Told {
    there: bool,
    row: Option<u8>,
    reads: u64,
}

// The last byte of the place of the row that comes next.
fn next_row(reading: &mut Reading<'_, MemSealed>) -> Option<u8>
    ensures { reading.new.table.now ≡ reading.old.table.now }
{
    match reading.next() {
        Ok(Some(fragment)) => place_of(&fragment),
        Ok(None) => None,
        Err(_) => None,
    }
}

// What is read of a key.
fn read(reading: &mut Reading<'_, MemSealed>, key: u8, slice: &Slice) -> Told
    requires { IsSliceOf (clustering_order reading.old.table.now.columns) slice.now }
    ensures { reading.new.table.now ≡ reading.old.table.now }
{
    let there = match reading.seek(&[key], slice) {
        Ok(there) => there,
        Err(_) => false,
    };
    let row = next_row(reading);
    Told {
        there,
        row,
        reads: reading.reads(),
    }
}

// Whether the block of the second key is read once for two slices, and one that has no key gives nothing.
fn reads_once(alloc: Global, table: &Table<MemSealed>) -> bool
    requires { IsNarrow table.now.columns }
{
    let Ok(slice) = rows_from(alloc, table, 0, false) else {
        return false;
    };
    let Ok(mut reading) = Reading::new(alloc, table, 2) else {
        return false;
    };
    let before = next_row(&mut reading);
    let first = read(&mut reading, 2, &slice);
    let again = read(&mut reading, 2, &slice);
    let other = read(&mut reading, 3, &slice);
    before == None
        && first
            == Told {
                there: true,
                row: Some(9),
                reads: 1,
            }
        && again
            == Told {
                there: true,
                row: Some(9),
                reads: 1,
            }
        && other
            == Told {
                there: false,
                row: None,
                reads: 1,
            }
}

#[test]
fn a_block_that_is_kept_is_not_read_again(rt: HostRuntime) {
    let alloc = rt.alloc();
    let table = load(alloc, &FILE);
    assert!(rt;
        match &table {
            Ok(table) => is_readable(table) && reads_once(alloc, table),
            Err(_) => false,
        }
    );
}
