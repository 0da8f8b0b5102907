//! One INSERT, by hand: its record's bytes, and its table.

ghost use Rattle.std.specs.Prelude.{IfOk};
ghost use Rattle.cas_types.specs.Limits.{IsNarrow};
ghost use Rattle.cas_mutations.specs.Allowed.{AreTables};

use cas_types::{Column, Kind, List, Options, Shape, Strategy, TableSchema, Text, TypeTag, Unit};
use std::alloc::{AllocError, Global};

/// `INSERT INTO t (k, c, v) VALUES (1, 1, 'a')`, the first mutation of shard 0.
pub(crate) const RECORD: [u8; 85] = [
    0, 0, 0, 81, // the bytes that follow
    0, 0, // the table
    0, // the shard
    0, 0, 0, 0, 0, 0, 0, 1, // the mutation's number
    1, // its timestamp was drawn
    0, 0, 0, 0, 0, 0, 0, 0, // the timestamp
    0, 0, 0, 0, 0, 0, 0, 0, // the moment
    0, 4, 0, 0, 0, 1, // the key
    0, 0, 0, 2, // two atoms
    5, 1, 0, 4, 0, 0, 0, 1, 0, 0, 0, 0, 0, 0, 0, 0, 0, // the row is there
    6, 1, 0, 4, 0, 0, 0, 1, // a cell of the row
    0, 2, 0, 0, // of the third column, with no path
    0, 0, 0, 0, 0, 0, 0, 0, 0, 0, 0, 0, 1, 0x61, // 'a'
];

fn column(alloc: Global, kind: Kind, shape: Shape, tag: TypeTag) -> Column {
    Column {
        name: Text::from_string(String::new(alloc)),
        kind,
        shape,
        tag,
        second: None,
    }
}

/// `k int, c int, v text, l list<int>, s text static, PRIMARY KEY (k, c)`
pub(crate) fn columns(alloc: Global) -> Result<Vec<Column>, AllocError>
    ensures { IfOk result (λ v. IsNarrow v.items) }
{
    Ok(vec![in alloc;
        column(alloc, Kind::Partition, Shape::One, TypeTag::Int),
        column(alloc, Kind::Ascending, Shape::One, TypeTag::Int),
        column(alloc, Kind::Regular, Shape::One, TypeTag::Text),
        column(alloc, Kind::Regular, Shape::List, TypeTag::Int),
        column(alloc, Kind::Static, Shape::One, TypeTag::Text),
    ]?)
}

/// The one table of these columns.
pub(crate) fn tables(alloc: Global) -> Result<Vec<TableSchema>, AllocError>
    ensures { IfOk result (λ v. AreTables v.items) }
{
    let options = Options {
        gc_grace_seconds: 864_000,
        default_time_to_live: 0,
        strategy: Strategy::SizeTiered,
        min_threshold: 4,
        max_threshold: 32,
        bucket_low: 50,
        bucket_high: 150,
        min_sstable_size: 52_428_800,
        sstable_size_in_mb: 160,
        fanout_size: 10,
        unit: Unit::Days,
        window: 1,
    };
    let table = TableSchema {
        number: 0,
        name: Text::from_string(String::new(alloc)),
        columns: List::from_vec(columns(alloc)?),
        options,
    };
    Ok(vec![in alloc; table]?)
}
