//! A memtable of two partitions, and what it says of them.

use crate::writes::{Statement, key, mutation, slice};
use cas_atoms::{Row, RowColumn};
use cas_memtable::MemPart;
use cas_partition::PartitionStream;
use cas_streams::{Fragment, FragmentSource};
use cas_types::{Bytes, List};
use std::alloc::{AllocError, Global};
use std::test::Fail;

// A fragment in short: what it is, where it stands, and the value of its cell or the timestamp of
// its deletion.
type Short = (char, u8, i64);

const NOTHING: Short = ('-', 0, 0);

// Joins what a statement writes: in the two steps of a write, or in one, as at an opening.
fn join(
    part: &mut MemPart,
    alloc: Global,
    k: u8,
    what: Statement,
    at: u8,
    in_one: bool,
) -> Result<(), AllocError> {
    let mutation = mutation(alloc, k, what, at)?;
    if in_one {
        return part.insert(mutation);
    }
    part.reserve(&mutation)?;
    part.apply(mutation);
    Ok(())
}

// The UPDATE at 8 is older than what the INSERT at 10 wrote. Under 3 there is only a place.
fn written(alloc: Global, in_one: bool) -> Result<MemPart, AllocError> {
    let mut part = MemPart::new(alloc);
    let statements = [
        (1, Statement::Insert(3), 10),
        (1, Statement::Insert(5), 20),
        (1, Statement::Update(3), 8),
        (1, Statement::DeleteRow(7), 12),
        (1, Statement::DeleteRows(4, 6), 15),
        (1, Statement::UpdateStatic, 9),
        (2, Statement::Insert(1), 30),
    ];
    for (k, what, at) in statements {
        join(&mut part, alloc, k, what, at, in_one)?;
    }
    part.reserve(&mutation(alloc, 3, Statement::Insert(1), 40)?)?;
    Ok(part)
}

fn first_byte(values: &[Bytes]) -> u8 {
    match values {
        [value, ..] => value.as_slice().first().copied().unwrap_or(0),
        [] => 0,
    }
}

fn cell(columns: &List<RowColumn>) -> i64 {
    match columns.as_slice() {
        [column] => match column.cells.as_slice() {
            [found] => i64::from(found.cell.value().first().copied().unwrap_or(0)),
            _ => 0,
        },
        _ => 0,
    }
}

fn short_row(row: &Row) -> Short {
    let c = first_byte(row.clustering.values.as_slice());
    match (row.live, row.deletion) {
        (Some(_), None) => ('r', c, cell(&row.columns)),
        (None, Some(d)) => ('d', c, d.at),
        _ => NOTHING,
    }
}

fn short(fragment: &Fragment) -> Short {
    match fragment {
        Fragment::Static(columns) => ('s', 0, cell(columns)),
        Fragment::Row(row) => short_row(row),
        Fragment::Marker(cut, deletion) => {
            let kind = if cut.after { 'a' } else { 'b' };
            let at = deletion.map(|d| d.at).unwrap_or(0);
            (kind, first_byte(cut.prefix.as_slice()), at)
        }
    }
}

fn first_seven(mut source: PartitionStream<'_>) -> Result<[Short; 7], AllocError> {
    let mut found = [NOTHING; 7];
    for i in 0..7 {
        if let Some(fragment) = source.next()? {
            found[i] = short(&fragment);
        }
    }
    Ok(found)
}

// What there is of that row, or of all rows, of the partition; none where nothing was written.
fn shown(
    part: &MemPart,
    alloc: Global,
    k: u8,
    row: Option<u8>,
) -> Result<Option<[Short; 7]>, AllocError> {
    let slice = slice(alloc, row)?;
    match part.part(&key(alloc, k)?, &slice)? {
        Some(source) => Ok(Some(first_seven(source)?)),
        None => Ok(None),
    }
}

// The key that comes behind that one, or first.
fn behind(part: &MemPart, alloc: Global, k: u8) -> Result<u8, AllocError> {
    let after = key(alloc, k)?;
    let next = part.next_key(if k == 0 { None } else { Some(&after) });
    Ok(match next {
        Some(found) => found.as_slice().first().copied().unwrap_or(0),
        None => 0,
    })
}

#[test]
fn a_memtable_says_what_was_written(rt: HostRuntime) -> Result<(), Fail> {
    let alloc = rt.alloc();
    let (s, r3, r5) = (('s', 0, 9), ('r', 3, 10), ('r', 5, 20));
    let (from, to, r7) = (('b', 4, 15), ('a', 6, 0), ('d', 7, 12));
    let n = NOTHING;
    let table = [
        (1, None, Some([s, r3, from, r5, to, r7, n])),
        (
            1,
            Some(5),
            Some([s, ('b', 5, 15), r5, ('a', 5, 0), n, n, n]),
        ),
        (1, Some(7), Some([s, r7, n, n, n, n, n])),
        (2, None, Some([('r', 1, 30), n, n, n, n, n, n])),
        (3, None, None),
    ];
    for in_one in [false, true] {
        let part = written(alloc, in_one)?;
        for (k, row, want) in &table {
            assert_eq!(rt; shown(&part, alloc, *k, *row)?, *want, "{k}");
        }
        for (k, want) in [(1, Some(8)), (2, Some(30)), (3, None)] {
            assert_eq!(rt; part.least(&key(alloc, k)?), want, "{k}");
        }
        for (k, next) in [(0, 1), (1, 2), (2, 0)] {
            assert_eq!(rt; behind(&part, alloc, k)?, next, "{k}");
        }
        assert_eq!(rt; part.bytes(), 474);
    }
    Ok(())
}
