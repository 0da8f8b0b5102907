//! What one partition shows to several queries, by hand.

use crate::fragments::{Short, cut, stream};
use cas_atoms::{ColumnRef, Datum, LiveRow, PathCell, Pick, Query, RowColumn};
use cas_bounds::Slice;
use cas_cell::Cell;
use cas_live::LiveRows;
use cas_streams::{Fragment, Part};
use cas_types::{Bytes, Column, Kind, List, Shape, Text, TypeTag};
use std::alloc::{AllocError, Global};
use std::test::Fail;

fn column(alloc: Global, kind: Kind) -> Column {
    Column {
        name: Text::from_string(String::new(alloc)),
        kind,
        shape: Shape::One,
        tag: TypeTag::TinyInt,
        second: None,
    }
}

// `k tinyint, c tinyint, s tinyint static, PRIMARY KEY (k, c)`
fn columns(alloc: Global) -> Result<List<Column>, AllocError> {
    let mut columns = Vec::new(alloc);
    columns.push(column(alloc, Kind::Partition))?;
    columns.push(column(alloc, Kind::Ascending))?;
    columns.push(column(alloc, Kind::Static))?;
    Ok(List::from_vec(columns))
}

// From the row of that value on, or all.
fn slice(alloc: Global, least: Option<u8>) -> Result<Slice, AllocError> {
    Ok(Slice {
        lo: cut(alloc, least, false)?,
        hi: cut(alloc, None, true)?,
    })
}

// c and s
fn picks(alloc: Global) -> Result<List<Pick>, AllocError> {
    Ok(List::from_vec(vec![in alloc; Pick::Value(1), Pick::Value(2)]?))
}

// SELECT c, s FROM t WHERE k = 1 and, where a least c is told, c >= it
fn select(
    alloc: Global,
    least: Option<u8>,
    reversed: bool,
    limit: Option<u32>,
) -> Result<Query, AllocError> {
    Ok(Query {
        table: 0,
        columns: columns(alloc)?,
        key: Bytes::copy_of(alloc, &[1])?,
        slice: slice(alloc, least)?,
        reversed,
        limit,
        picks: picks(alloc)?,
    })
}

// s is 90
fn cell(alloc: Global) -> Result<PathCell, AllocError> {
    let value = Bytes::copy_of(alloc, &[90])?;
    Ok(PathCell {
        path: Bytes::copy_of(alloc, &[])?,
        cell: Cell::Plain { at: 7, value },
    })
}

fn static_column(alloc: Global) -> Result<RowColumn, AllocError> {
    let column = ColumnRef {
        number: 2,
        path: None,
    };
    Ok(RowColumn {
        column,
        deletion: None,
        cells: List::from_vec(vec![in alloc; cell(alloc)?]?),
    })
}

// The static row, and so many of: rows 1, 4 and 7, which live; row 3 under a deletion of the rows from 2 to 5.
fn partition(alloc: Global, rows: &[Short]) -> Result<Part, AllocError> {
    let columns = vec![in alloc; static_column(alloc)?]?;
    let fragments = vec![in alloc; Fragment::Static(List::from_vec(columns))]?;
    stream(alloc, 0, fragments, rows)
}

fn value(datum: Option<&Datum>) -> u8 {
    match datum {
        Some(Datum::One(_, value)) => value.as_slice().first().copied().unwrap_or(0),
        _ => 0,
    }
}

// A row in short: c, or 100 for null; 0 where s isn't 90.
fn short(row: &LiveRow) -> u8 {
    let values = row.values.as_slice();
    match (value(values.first()), value(values.get(1))) {
        (0, 90) => 100,
        (c, 90) => c,
        _ => 0,
    }
}

// The first four answers of live rows, in short; 0 is none.
fn first_four(rows: &mut LiveRows<Part>) -> Result<[u8; 4], AllocError> {
    let mut found = [0; 4];
    for i in 0..4 {
        if let Some(row) = rows.next()? {
            found[i] = short(&row);
        }
    }
    Ok(found)
}

#[test]
fn queries_show_the_rows_that_live(rt: HostRuntime) -> Result<(), Fail> {
    let alloc = rt.alloc();
    let all = [
        ('r', 1, 10),
        ('b', 2, 20),
        ('r', 3, 15),
        ('r', 4, 30),
        ('a', 5, 0),
        ('r', 7, 5),
    ];
    let table = [
        (&all[..], None, false, None, [1, 4, 7, 0]),
        (&all[..], None, true, None, [7, 4, 1, 0]),
        (&all[..], None, false, Some(2), [1, 4, 0, 0]),
        (&all[..], None, true, Some(2), [7, 4, 0, 0]),
        (&all[..], Some(2), false, None, [4, 7, 0, 0]),
        (&all[..0], None, true, Some(1), [100, 0, 0, 0]),
        (&all[..0], Some(2), false, None, [0, 0, 0, 0]),
    ];
    for (rows, least, reversed, limit, want) in table {
        let query = select(alloc, least, reversed, limit)?;
        assert!(rt; query.columns.len() < 65_536);
        let mut shown = LiveRows::new(alloc, partition(alloc, rows)?, query, 100);
        assert_eq!(rt; first_four(&mut shown)?, want);
    }
    Ok(())
}
