//! Which fragments have room in their fields.

ghost use Rattle.std.specs.Prelude.{◌↔◌, ◌<◌, ◌^◌, IsTrue, length};
ghost use Rattle.std.specs.List.{AllByRecursion};
ghost use Rattle.cas_fragments.specs.Allowed.{AreShort, CellHasRoom, ColumnHasRoom, HaveRoom};
ghost use Rattle.cas_sstwrite.specs.Rooms.{IsHeld};

use cas_atoms::{PathCell, Row, RowColumn};
use cas_streams::Fragment;
use cas_types::Bytes;

// Fewer bytes than two bytes can count.
const SHORT: usize = 1 << 16;

// Fewer bytes, or cells, than four bytes can count.
const LONG: usize = 1 << 32;

// Fewer values than one byte can count.
const FEW: usize = 1 << 8;

fn each_short(values: &[Bytes]) -> bool
    ensures { IsTrue result ↔ AllByRecursion (λ v. length v < 2 ^ 16) values.now }
{
    let mut rest = values;
    while let [value, others @ ..] = rest {
        if value.as_slice().len() >= SHORT {
            return false;
        }
        rest = others;
    }
    true
}

fn are_short(values: &[Bytes]) -> bool
    ensures { IsTrue result ↔ AreShort values.now }
{
    values.len() < FEW && each_short(values)
}

fn cell_has_room(cell: &PathCell) -> bool
    ensures { IsTrue result ↔ CellHasRoom cell.now }
{
    cell.path.as_slice().len() < SHORT && cell.cell.value().len() < LONG
}

fn cells_have_room(cells: &[PathCell]) -> bool
    ensures { IsTrue result ↔ AllByRecursion CellHasRoom cells.now }
{
    let mut rest = cells;
    while let [cell, others @ ..] = rest {
        if !cell_has_room(cell) {
            return false;
        }
        rest = others;
    }
    true
}

fn column_has_room(column: &RowColumn) -> bool
    ensures { IsTrue result ↔ ColumnHasRoom column.now }
{
    let cells = column.cells.as_slice();
    cells.len() < LONG && cells_have_room(cells)
}

fn each_has_room(columns: &[RowColumn]) -> bool
    ensures { IsTrue result ↔ AllByRecursion ColumnHasRoom columns.now }
{
    let mut rest = columns;
    while let [column, others @ ..] = rest {
        if !column_has_room(column) {
            return false;
        }
        rest = others;
    }
    true
}

/// Whether the columns of a row, or of the static row, have room in their fields.
pub fn have_room(columns: &[RowColumn]) -> bool
    ensures { IsTrue result ↔ HaveRoom columns.now }
{
    columns.len() < SHORT && each_has_room(columns)
}

fn row_has_room(row: &Row) -> bool
    ensures { IsTrue result ↔ (AreShort row.now.clustering.values × HaveRoom row.now.columns) }
{
    are_short(row.clustering.values.as_slice()) && have_room(row.columns.as_slice())
}

/// Whether a block can hold the fragment.
pub fn has_room(fragment: &Fragment) -> bool
    ensures { IsTrue result ↔ IsHeld fragment.now }
{
    match fragment {
        Fragment::Static(_) => false,
        Fragment::Row(row) => row_has_room(row),
        Fragment::Marker(cut, _) => are_short(cut.prefix.as_slice()),
    }
}
