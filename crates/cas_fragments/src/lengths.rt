//! How many bytes fragments take.

ghost use Rattle.std.specs.Prelude.{◌≡◌, ◌+◌, ◌-◌, ◌^◌, min};
ghost use Rattle.std.specs.List.{sum_by};
ghost use Rattle.cas_fragments.specs.Lengths.{path_cell_length, maybe_deletion_length, maybe_live_length, column_length};
ghost use Rattle.cas_fragments.specs.Lengths.{columns_length, row_length, fragment_length, head_length};

use cas_atoms::{PathCell, Row, RowColumn};
use cas_cell::{Cell, Deletion, Liveness};
use cas_records::values_len;
use cas_streams::Fragment;

// The length of a cell with its path; 2^64-1 where it is greater, as with those below.
fn path_cell_len(cell: &PathCell) -> usize
    ensures { result ≡ min (path_cell_length cell.now) (2 ^ 64 - 1) }
{
    let rest = match cell.cell {
        Cell::Plain { .. } => 13,
        Cell::Expiring { .. } => 25,
        Cell::Tombstone { .. } => 17,
    };
    cell.path
        .as_slice()
        .len()
        .saturating_add(cell.cell.value().len())
        .saturating_add(2 + rest)
}

fn cells_len(cells: &[PathCell]) -> usize
    ensures { result ≡ min (4 + sum_by path_cell_length cells.now) (2 ^ 64 - 1) }
{
    let mut total: usize = 4;
    for cell in cells {
        total = total.saturating_add(path_cell_len(cell));
    }
    total
}

fn maybe_deletion_len(deletion: Option<Deletion>) -> usize
    ensures { result ≡ maybe_deletion_length deletion }
{
    match deletion {
        None => 1,
        Some(_) => 17,
    }
}

fn maybe_live_len(live: Option<Liveness>) -> usize
    ensures { result ≡ maybe_live_length live }
{
    match live {
        None => 1,
        Some(Liveness::Plain { .. }) => 10,
        Some(Liveness::Expiring { .. }) => 22,
    }
}

fn column_len(column: &RowColumn) -> usize
    ensures { result ≡ min (column_length column.now) (2 ^ 64 - 1) }
{
    cells_len(column.cells.as_slice()).saturating_add(2 + maybe_deletion_len(column.deletion))
}

/// The length of columns, with their number.
pub(crate) fn columns_len(columns: &[RowColumn]) -> usize
    ensures { result ≡ min (columns_length columns.now) (2 ^ 64 - 1) }
{
    let mut total: usize = 2;
    for column in columns {
        total = total.saturating_add(column_len(column));
    }
    total
}

fn row_len(row: &Row) -> usize
    ensures { result ≡ min (row_length row.now) (2 ^ 64 - 1) }
{
    values_len(row.clustering.values.as_slice())
        .saturating_add(maybe_deletion_len(row.deletion) + maybe_live_len(row.live))
        .saturating_add(columns_len(row.columns.as_slice()))
}

/// The length of a fragment.
pub(crate) fn fragment_len(fragment: &Fragment) -> usize
    ensures { result ≡ min (fragment_length fragment.now) (2 ^ 64 - 1) }
{
    match fragment {
        Fragment::Static(_) => 0,
        Fragment::Row(row) => row_len(row).saturating_add(1),
        Fragment::Marker(cut, deletion) => {
            values_len(cut.prefix.as_slice()).saturating_add(2 + maybe_deletion_len(*deletion))
        }
    }
}

/// The length of a partition's head.
pub(crate) fn head_len(key: &[u8], top: Option<Deletion>, columns: &[RowColumn]) -> usize
    ensures { result ≡ min (head_length key.now top columns.now) (2 ^ 64 - 1) }
{
    key.len()
        .saturating_add(2 + maybe_deletion_len(top))
        .saturating_add(columns_len(columns))
}
