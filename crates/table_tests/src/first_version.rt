//! A table file of the format's first version by hand: the partitions of `by_hand.rt`, in whose heads nothing stands for static
//! columns. It is loaded, nothing wrong is found in it, and its row is read.

ghost use Rattle.std.specs.Prelude.{◌<◌};

use crate::by_hand::{FILE, load, load_listed};
use crate::reads::{Told, is_readable, read_from};
use cas_disk::{Count, FaultCount, MemSealed};
use cas_info::FILE_LIMIT;
use cas_sstread::{Table, TableFault};
use cas_verify::check;
use std::alloc::Global;

const FIRST: [u8; 217] = [
    0x43, 0x41, 0x53, 0x53, 0x54, 0x41, 0x42, 0x31, // CASSTAB1
    0, 1, 0, 3, 1, // version 1, table 3, shard 1
    0, 0, 0, 0, 0, 0, 0, 0xff, // file 255
    0, 1, 1, // 21: the partition 01
    1, 0, 0, 0, 0, 0, 0, 0, 5, // deleted at 5
    0, 0, 0, 0, 0, 0, 0, 6, // in the second 6
    0, 0, 0, 0, // 41: no blocks
    0, 1, 2, // 45: the partition 02
    0, // not deleted
    0, 0, 0, 0x15, // 49: a block of 21 bytes
    1, 1, 0, 4, 0, 0, 0, 9, 0, // a row, at 9, which isn't deleted
    1, 0, 0, 0, 0, 0, 0, 0, 0, 7, 0, 0, // inserted at 7, no columns
    0, 0, 0, 0, // no more blocks
    0, 0, 0, 2, // 78, the index: two partitions
    0, 1, 1, // the first
    0, 0, 0, 0, 0, 0, 0, 0x15, // stands at 21
    0, 0, 0, 0, // and has no blocks
    0, 1, 2, // the second
    0, 0, 0, 0, 0, 0, 0, 0x2d, // stands at 45
    0, 0, 0, 1, // and has one block
    0, 1, 0, 4, 0, 0, 0, 9, // which begins before the row 9
    0, 0, 0, 0, 0, 0, 0, 0x31, // stands at 49
    0, // and no range deletion is in force there
    0, 0, 0, 0x40, // 129, the filter: 64 bits
    1, 0x10, 0x4a, 0xc, 0x61, 0x24, 0, 2, // of both keys
    0, 0, 0, 0, 0, 0, 0, 0xff, // 141, the info: file 255
    0, 0, 0, 0, 0, 0, 0, 0xd9, // 217 bytes
    0, 1, 1, 0, 1, 2, // from 01 to 02
    0, 0, 0, 0, 0, 0, 0, 5, // from 5
    0, 0, 0, 0, 0, 0, 0, 7, // to 7
    0, 0, // not all is dead, level 0
    0, 0, 0, 2, // two keys
    0, 0, 0, 0, 0, 0, 0, 0x4e, // 185, the footer: the index
    0, 0, 0, 0, 0, 0, 0, 0x81, // the filter
    0, 0, 0, 0, 0, 0, 0, 0x8d, // the info
    0x43, 0x41, 0x53, 0x53, 0x45, 0x4e, 0x44, 0x31, // CASSEND1
];

// Where the check refuses the table, or nothing.
fn found(alloc: Global, table: &Table<MemSealed>) -> Result<(), u64> {
    if !is_readable(table) || table.info().bytes > FILE_LIMIT {
        return Err(1000);
    }
    match check(alloc, table, &mut FaultCount::fresh()) {
        Ok(()) => Ok(()),
        Err(TableFault::BadBlock { at, .. }) => Err(at),
        Err(_) => Err(1000),
    }
}

// Where the check refuses a file that is loaded, or nothing.
fn checked(alloc: Global, loaded: Result<Table<MemSealed>, u64>) -> Result<(), u64> {
    match &loaded {
        Ok(table) => found(alloc, table),
        Err(_) => Err(1000),
    }
}

// The file with another byte at a place.
fn altered(alloc: Global, place: usize, byte: u8) -> Result<(), u64>
    requires { place < 217 }
{
    let mut bytes = FIRST;
    bytes[place] = byte;
    checked(alloc, load_listed(alloc, &bytes, 217))
}

#[test]
fn a_file_of_the_first_version_is_read(rt: HostRuntime) {
    let alloc = rt.alloc();
    let table = load_listed(alloc, &FIRST, 217);
    assert!(rt;
        match &table {
            Ok(table) => read_from(alloc, table, 1, 0, false)
                == Told::Partition(Some(5), None, true)
                && read_from(alloc, table, 2, 0, false) == Told::Partition(None, Some(9), true)
                && read_from(alloc, table, 2, 9, true) == Told::Partition(None, None, true)
                && read_from(alloc, table, 3, 0, false) == Told::Nothing,
            Err(_) => false,
        }
    );
}

// With the second version's number the two bytes at 41 tell that there are no static columns, and the length of a block stands at
// 43, which is 1: at 47 a marker begins whose cut is short.
fn are_told(alloc: Global) -> bool {
    checked(alloc, load(alloc, &FILE)) == Ok(())
        && altered(alloc, 9, 1) == Ok(()) // as it is
        && altered(alloc, 9, 2) == Err(48) // of the second version
        && altered(alloc, 24, 0) == Err(25) // not deleted, so that it may not end without blocks
        && altered(alloc, 47, 1) == Err(45) // the second key isn't above the first
        && altered(alloc, 53, 3) == Err(53) // neither a row nor a marker
        && altered(alloc, 119, 10) == Err(112) // the index has another cut of the block
        && altered(alloc, 133, 0) == Err(133) // the filter hasn't got a key
}

#[test]
fn a_file_of_the_first_version_is_checked(rt: HostRuntime) {
    assert!(rt; are_told(rt.alloc()));
}
