//! What a row in order has in one of its columns, and what the column shows of it.

ghost use Rattle.std.specs.Prelude.{◌≡◌, ◌≤ℤ◌, pos, IsTrue, [], map, IfOk, IfSome};
ghost use Rattle.std.specs.Option.{option_copied, option_map};
ghost use Rattle.cas_cell.specs.Cells.{cell_at, cell_value, cell_lives};
ghost use Rattle.cas_types.specs.declared.schema.Shape.TheVariants as shape;
ghost use Rattle.cas_atoms.specs.Coordinates.{same_bytes};
ghost use Rattle.cas_atoms.specs.Picks.{one_or_null, set_or_null, list_or_null, map_or_null, number_or_null, left_of};
ghost use Rattle.cas_live.specs.Inner.OwnRow.{columns_from, front_of, cover_in, cells_in, cell_of, shows, some_shows, shown_cells};
ghost use Rattle.cas_live.specs.Inner.OwnRow.{plain_shown, own_value, own_pick};

use cas_atoms::{Datum, PathCell, Pick, RowColumn, greater_deletion};
use cas_cell::{Cell, Deletion, alive, covers};
use cas_types::{Bytes, Column, List, Shape, TypeTag};
use std::alloc::{AllocError, Global};

/// The columns from that number on.
pub(crate) fn columns_from(number: u16, columns: &[RowColumn]) -> &[RowColumn]
    ensures { result.now ≡ columns_from number columns.now }
{
    let mut rest = columns;
    while let [c, others @ ..] = rest {
        if c.column.number >= number {
            return rest;
        }
        rest = others;
    }
    rest
}

/// The column in front, where it has that number.
pub(crate) fn front_of(number: u16, columns: &[RowColumn]) -> Option<&RowColumn>
    ensures { option_copied result ≡ front_of number columns.now }
{
    match columns {
        [c, _others @ ..] if c.column.number == number => Some(c),
        _ => None,
    }
}

/// The greatest deletion of what is in the column.
pub(crate) fn cover_in(over: Option<Deletion>, column: Option<&RowColumn>) -> Option<Deletion>
    ensures { result ≡ cover_in over (option_copied column.entry) }
{
    match column {
        Some(c) => greater_deletion(over, c.deletion),
        None => over,
    }
}

/// The cells of the column, where there is one.
pub(crate) fn cells_in(column: Option<&RowColumn>) -> &[PathCell]
    ensures { result.now ≡ cells_in (option_copied column.entry) }
{
    match column {
        Some(c) => c.cells.as_slice(),
        None => &[],
    }
}

// Whether the cell is alive at the moment where that deletion is the greatest.
fn shows(now: i64, over: Option<Deletion>, c: &PathCell) -> bool
    ensures { result ≡ shows now over c.now }
{
    match over {
        Some(d) if covers(&d, c.cell.at()) => false,
        _ => alive(&c.cell, now),
    }
}

/// Whether some cell is.
pub(crate) fn some_shows(now: i64, over: Option<Deletion>, cells: &[PathCell]) -> bool
    ensures { result ≡ some_shows now over cells.now }
{
    let mut rest = cells;
    while let [c, others @ ..] = rest {
        if shows(now, over, c) {
            return true;
        }
        rest = others;
    }
    false
}

// Whether the path is the empty one.
fn is_plain(path: &[u8]) -> bool
    ensures { result ≡ same_bytes path.now [] }
{
    match path {
        [] => true,
        [_first, _others @ ..] => false,
    }
}

// The first cell at the empty path.
fn plain_cell(cells: &[PathCell]) -> Option<&PathCell>
    ensures { option_map (λ c. c.cell) (option_copied result) ≡ cell_of [] cells.now }
{
    let mut rest = cells;
    while let [c, others @ ..] = rest {
        if is_plain(c.path.as_slice()) {
            return Some(c);
        }
        rest = others;
    }
    None
}

// The cell of a plain column, where it is alive.
fn plain_shown(now: i64, over: Option<Deletion>, cells: &[PathCell]) -> Option<&Cell>
    ensures cell { option_copied result ≡ plain_shown now over cells.now }
    ensures alive { IfSome result (λ c. IsTrue (cell_lives now c.now)) }
{
    match plain_cell(cells) {
        Some(c) if shows(now, over, c) => Some(&c.cell),
        _ => None,
    }
}

fn plain_value(tag: TypeTag, alloc: Global, cell: Option<&Cell>) -> Result<Datum, AllocError>
    ensures { IfOk result (λ d. d ≡ one_or_null tag (option_map cell_value (option_copied cell.entry))) }
{
    match cell {
        Some(c) => Ok(Datum::One(tag, Bytes::copy_of(alloc, c.value())?)),
        None => Ok(Datum::Null),
    }
}

// The paths of the cells that show.
fn shown_paths(
    alloc: Global,
    now: i64,
    over: Option<Deletion>,
    cells: &[PathCell],
) -> Result<Vec<Bytes>, AllocError>
    ensures { IfOk result (λ v. v.items ≡ map (λ e. e.path) (shown_cells now over cells.now)) }
{
    let mut paths = Vec::new(alloc);
    let mut rest = cells;
    while let [c, others @ ..] = rest {
        if shows(now, over, c) {
            paths.push(c.path.clone()?)?;
        }
        rest = others;
    }
    Ok(paths)
}

// The values of the cells that show.
fn shown_values(
    alloc: Global,
    now: i64,
    over: Option<Deletion>,
    cells: &[PathCell],
) -> Result<Vec<Bytes>, AllocError>
    ensures { IfOk result (λ v. v.items ≡ map (λ e. cell_value e.cell) (shown_cells now over cells.now)) }
{
    let mut values = Vec::new(alloc);
    let mut rest = cells;
    while let [c, others @ ..] = rest {
        if shows(now, over, c) {
            values.push(Bytes::copy_of(alloc, c.cell.value())?)?;
        }
        rest = others;
    }
    Ok(values)
}

// The paths and values of the cells that show.
fn shown_entries(
    alloc: Global,
    now: i64,
    over: Option<Deletion>,
    cells: &[PathCell],
) -> Result<Vec<(Bytes, Bytes)>, AllocError>
    ensures { IfOk result (λ v. v.items ≡ map (λ e. (e.path, cell_value e.cell)) (shown_cells now over cells.now)) }
{
    let mut entries = Vec::new(alloc);
    let mut rest = cells;
    while let [c, others @ ..] = rest {
        if shows(now, over, c) {
            entries.push((c.path.clone()?, Bytes::copy_of(alloc, c.cell.value())?))?;
        }
        rest = others;
    }
    Ok(entries)
}

fn set_or_null(tag: TypeTag, values: Vec<Bytes>) -> Datum
    ensures { result ≡ set_or_null tag values.items }
{
    if values.is_empty() {
        Datum::Null
    } else {
        Datum::Set(tag, List::from_vec(values))
    }
}

fn list_or_null(tag: TypeTag, values: Vec<Bytes>) -> Datum
    ensures { result ≡ list_or_null tag values.items }
{
    if values.is_empty() {
        Datum::Null
    } else {
        Datum::List(tag, List::from_vec(values))
    }
}

fn map_or_null(keys: TypeTag, values: TypeTag, entries: Vec<(Bytes, Bytes)>) -> Datum
    ensures { result ≡ map_or_null keys values entries.items }
{
    if entries.is_empty() {
        Datum::Null
    } else {
        Datum::Map(keys, values, List::from_vec(entries))
    }
}

// What the column shows of its cells.
fn own_value(
    alloc: Global,
    now: i64,
    over: Option<Deletion>,
    cells: &[PathCell],
    column: &Column,
) -> Result<Datum, AllocError>
    ensures { IfOk result (λ d. d ≡ own_value column.now.shape now over cells.now column.now) }
{
    match column.shape {
        Shape::One => plain_value(column.tag, alloc, plain_shown(now, over, cells)),
        Shape::Set => Ok(set_or_null(column.tag, shown_paths(alloc, now, over, cells)?)),
        Shape::List => Ok(list_or_null(column.tag, shown_values(alloc, now, over, cells)?)),
        Shape::Map => {
            let entries = shown_entries(alloc, now, over, cells)?;
            Ok(map_or_null(column.tag, column.value_type(), entries))
        }
    }
}

fn write_time(cell: Option<&Cell>) -> Option<i64>
    ensures { result ≡ option_map cell_at (option_copied cell.entry) }
{
    match cell {
        Some(cell) => Some(cell.at()),
        None => None,
    }
}

// The seconds until the cell expires, of which one with no TTL has none.
fn seconds_left(now: i64, cell: Option<&Cell>) -> Option<i64>
    requires begun { pos 0 ≤ℤ now }
    requires alive { IfSome cell (λ c. IsTrue (cell_lives now c.now)) }
    ensures { result ≡ left_of now (option_copied cell.entry) }
{
    match cell {
        Some(Cell::Expiring { expiry, .. }) => Some(*expiry - now),
        _ => None,
    }
}

fn number_or_null(number: Option<i64>) -> Datum
    ensures { result ≡ number_or_null number }
{
    match number {
        Some(number) => Datum::Number(number),
        None => Datum::Null,
    }
}

/// What the column shows of its cells for a pick.
pub(crate) fn own_pick(
    alloc: Global,
    pick: Pick,
    now: i64,
    over: Option<Deletion>,
    cells: &[PathCell],
    column: &Column,
) -> Result<Datum, AllocError>
    requires begun { pos 0 ≤ℤ now }
    ensures { IfOk result (λ d. d ≡ own_pick pick now over cells.now column.now) }
{
    match pick {
        Pick::Value(_) => own_value(alloc, now, over, cells, column),
        Pick::WriteTime(_) => Ok(number_or_null(write_time(plain_shown(now, over, cells)))),
        Pick::Ttl(_) => Ok(number_or_null(seconds_left(now, plain_shown(now, over, cells)))),
    }
}
