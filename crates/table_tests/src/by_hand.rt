//! A table file by hand: a partition that is deleted, and one with a row.

ghost use Rattle.std.specs.Prelude.{◌<◌, ◌≤◌, IfOk};
ghost use Rattle.cas_info.specs.declared.info.TheConstants.{FILE_LIMIT};

use cas_disk::{Count, Draft, FaultCount, FaultPlan, Folder, MemFolder, MemSealed};
use cas_info::TableInfo;
use cas_sstread::{Table, TableFault};
use cas_types::{
    Bytes, Column, Kind, List, Options, Shape, Strategy, TableSchema, Text, TypeTag, Unit,
};
use std::alloc::{AllocError, Global};

pub(crate) const FILE: [u8; 221] = [
    0x43, 0x41, 0x53, 0x53, 0x54, 0x41, 0x42, 0x31, // CASSTAB1
    0, 2, 0, 3, 1, // version 2, table 3, shard 1
    0, 0, 0, 0, 0, 0, 0, 0xff, // file 255
    0, 1, 1, // 21: the partition 01
    1, 0, 0, 0, 0, 0, 0, 0, 5, // deleted at 5
    0, 0, 0, 0, 0, 0, 0, 6, // in the second 6
    0, 0, // no static columns
    0, 0, 0, 0, // no blocks
    0, 1, 2, // 47: the partition 02
    0, 0, 0, // not deleted, no static columns
    0, 0, 0, 0x15, // a block of 21 bytes
    1, 1, 0, 4, 0, 0, 0, 9, 0, // a row, at 9, which isn't deleted
    1, 0, 0, 0, 0, 0, 0, 0, 0, 7, 0, 0, // inserted at 7, no columns
    0, 0, 0, 0, // no more blocks
    0, 0, 0, 2, // 82, the index: two partitions
    0, 1, 1, // the first
    0, 0, 0, 0, 0, 0, 0, 0x15, // stands at 21
    0, 0, 0, 0, // and has no blocks
    0, 1, 2, // the second
    0, 0, 0, 0, 0, 0, 0, 0x2f, // stands at 47
    0, 0, 0, 1, // and has one block
    0, 1, 0, 4, 0, 0, 0, 9, // which begins before the row 9
    0, 0, 0, 0, 0, 0, 0, 0x35, // stands at 53
    0, // and no range deletion is in force there
    0, 0, 0, 0x40, // 133, the filter: 64 bits
    1, 0x10, 0x4a, 0xc, 0x61, 0x24, 0, 2, // of both keys
    0, 0, 0, 0, 0, 0, 0, 0xff, // 145, the info: file 255
    0, 0, 0, 0, 0, 0, 0, 0xdd, // 221 bytes
    0, 1, 1, 0, 1, 2, // from 01 to 02
    0, 0, 0, 0, 0, 0, 0, 5, // from 5
    0, 0, 0, 0, 0, 0, 0, 7, // to 7
    0, 0, // not all is dead, level 0
    0, 0, 0, 2, // two keys
    0, 0, 0, 0, 0, 0, 0, 0x52, // 189, the footer: the index
    0, 0, 0, 0, 0, 0, 0, 0x85, // the filter
    0, 0, 0, 0, 0, 0, 0, 0x91, // the info
    0x43, 0x41, 0x53, 0x53, 0x45, 0x4e, 0x44, 0x31, // CASSEND1
];

fn column(alloc: Global, kind: Kind) -> Column {
    Column {
        name: Text::from_string(String::new(alloc)),
        kind,
        shape: Shape::One,
        tag: TypeTag::Int,
        second: None,
    }
}

// `k blob, c int, v int, PRIMARY KEY (k, c)`, as far as it matters
fn table(alloc: Global) -> Result<TableSchema, AllocError> {
    let columns = vec![in alloc;
        column(alloc, Kind::Partition),
        column(alloc, Kind::Ascending),
        column(alloc, Kind::Regular),
    ]?;
    Ok(TableSchema {
        number: 3,
        name: Text::from_string(String::new(alloc)),
        columns: List::from_vec(columns),
        options: Options {
            gc_grace_seconds: 864_000,
            default_time_to_live: 0,
            strategy: Strategy::SizeTiered,
            min_threshold: 4,
            max_threshold: 32,
            bucket_low: 50,
            bucket_high: 150,
            min_sstable_size: 52_428_800,
            sstable_size_in_mb: 160,
            fanout_size: 10,
            unit: Unit::Days,
            window: 1,
        },
    })
}

// What is told of a file of so many bytes with these partitions.
fn info(alloc: Global, bytes: u64) -> Result<TableInfo, AllocError>
    requires { bytes ≤ FILE_LIMIT }
    ensures { IfOk result (λ i. i.bytes ≤ FILE_LIMIT) }
{
    Ok(TableInfo {
        number: 255,
        bytes,
        first: Bytes::copy_of(alloc, &[1])?,
        last: Bytes::copy_of(alloc, &[2])?,
        least: 5,
        greatest: 7,
        dead: None,
        level: 0,
        keys: 2,
    })
}

// A file of these bytes.
fn sealed(alloc: Global, bytes: &[u8]) -> Option<MemSealed> {
    let mut folder = MemFolder::new(alloc, FaultPlan::none(alloc));
    let mut tally = FaultCount::fresh();
    let Ok(mut draft) = folder.draft(255) else {
        return None;
    };
    if draft.append(bytes, &mut tally).is_err() || draft.sync(&mut tally).is_err() {
        return None;
    }
    folder.admit(draft).ok()
}

/// The file of these bytes, listed with so many, loaded, or the place where it is refused.
pub(crate) fn load_listed(alloc: Global, bytes: &[u8], long: u64) -> Result<Table<MemSealed>, u64>
    requires { long ≤ FILE_LIMIT }
{
    let told = info(alloc, long);
    let (Ok(table), Ok(info), Some(file)) = (table(alloc), told, sealed(alloc, bytes)) else {
        return Err(1000);
    };
    let mut tally = FaultCount::fresh();
    match Table::load(alloc, file, &table, 1, &info, &mut tally) {
        Ok(table) => Ok(table),
        Err(TableFault::BadBlock { at, .. }) => Err(at),
        Err(_) => Err(1000),
    }
}

// The same, listed with the bytes of the file by hand.
pub(crate) fn load(alloc: Global, bytes: &[u8]) -> Result<Table<MemSealed>, u64> {
    load_listed(alloc, bytes, 221)
}

// What is answered where the byte at that place is this one.
fn altered(alloc: Global, place: usize, byte: u8) -> Result<(), u64>
    requires { place < 221 }
{
    let mut bytes = FILE;
    bytes[place] = byte;
    match load(alloc, &bytes) {
        Ok(_) => Ok(()),
        Err(at) => Err(at),
    }
}

// Another byte at a place: whether the file is loaded, or where it is refused.
const ALTERED: [(usize, u8, Result<(), u64>); 30] = [
    (0, 0x43, Ok(())), // as it is
    (7, 0x32, Err(0)), // another word
    (9, 1, Ok(())), // the first version
    (9, 3, Err(8)), // a third one
    (11, 4, Err(10)), // another table
    (12, 2, Err(12)), // another shard
    (20, 0xfe, Err(13)), // another file
    (23, 9, Ok(())), // partitions aren't looked at
    (85, 3, Err(133)), // more partitions than there are
    (85, 1, Err(101)), // fewer
    (88, 3, Err(101)), // the second key isn't above the first
    (96, 0x16, Err(82)), // no partition stands behind the header
    (103, 1, Err(101)), // one key twice
    (111, 0x15, Err(104)), // one place twice
    (115, 0, Err(116)), // a block fewer
    (131, 0x52, Err(82)), // a block behind the partitions
    (136, 0x48, Err(137)), // more bits than there are
    (137, 0, Ok(())), // bits of keys aren't looked at
    (152, 0xfe, Err(145)), // another file
    (160, 0xdc, Err(153)), // another length
    (163, 2, Err(161)), // another first key
    (166, 3, Err(164)), // another last key
    (174, 4, Err(167)), // another timestamp
    (183, 2, Err(183)), // no flag
    (184, 1, Err(184)), // another level
    (188, 1, Err(185)), // fewer keys
    (196, 0x10, Err(189)), // an index within the header
    (204, 0x51, Err(197)), // a filter before the index
    (212, 0xbe, Err(205)), // an info behind the footer
    (220, 0x32, Err(213)), // another word
];

#[test]
fn each_part_is_refused_where_it_is_wrong(rt: HostRuntime) {
    for i in 0..30 {
        let (place, byte, answer) = ALTERED[i];
        if place < 221 {
            assert!(rt; altered(rt.alloc(), place, byte) == answer, "{place}");
        }
    }
}

// Where the file is refused that ends there, or has one byte more.
fn ends(alloc: Global, long: usize) -> Result<(), u64> {
    let mut bytes = [0; 222];
    bytes[..221].copy_from_slice(&FILE);
    if long > 222 {
        return Ok(());
    }
    match load(alloc, &bytes[..long]) {
        Ok(_) => Ok(()),
        Err(at) => Err(at),
    }
}

#[test]
fn a_file_of_another_length(rt: HostRuntime) {
    let alloc = rt.alloc();
    assert!(rt;
        ends(alloc, 221) == Ok(())
            && ends(alloc, 222) == Err(221)
            && ends(alloc, 220) == Err(213)
            && ends(alloc, 100) == Err(189)
            && ends(alloc, 5) == Err(0)
    );
}

// Where the partition of the key stands, and where it ends.
fn places(table: &Table<MemSealed>, key: u8) -> Option<(u64, u64)> {
    match table.find(&[key]) {
        Some(partition) => Some((table.place(partition), table.place_behind(partition))),
        None => None,
    }
}

#[test]
fn what_is_found(rt: HostRuntime) {
    let table = load(rt.alloc(), &FILE);
    assert!(rt;
        match &table {
            Ok(table) => places(table, 1) == Some((21, 47))
                && places(table, 2) == Some((47, 82))
                && places(table, 3) == None
                && table.next_key(None) == Some(&[1])
                && table.next_key(Some(&[1])) == Some(&[2])
                && table.next_key(Some(&[2])) == None,
            Err(_) => false,
        }
    );
}
