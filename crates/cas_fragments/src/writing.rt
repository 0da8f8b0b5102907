//! Writes columns, rows, markers and fragments.

ghost use Rattle.std.specs.Prelude.{◌≡◌, ◌+◌, ◌<◌, ◌≤◌, ◌^◌, ◌++◌, length, OnOk, OnErr, vec_len};
ghost use Rattle.std.specs.List.{AllByRecursion, flat_map, sum_by};
ghost use Rattle.std.specs.Vec.{vec_capacity};
ghost use Rattle.cas_codec.specs.Fields.{maybe};
ghost use Rattle.cas_atoms.specs.LogLength.{cut_length};
ghost use Rattle.cas_records.specs.Spelling.{deletion_bytes, live_bytes};
ghost use Rattle.cas_fragments.specs.Spelling.{path_cell_bytes, cells_bytes, column_bytes, columns_bytes};
ghost use Rattle.cas_fragments.specs.Spelling.{row_bytes, marker_bytes, fragment_bytes};
ghost use Rattle.cas_fragments.specs.Lengths.{path_cell_length, maybe_deletion_length, maybe_live_length, column_length};
ghost use Rattle.cas_fragments.specs.Lengths.{columns_length, row_length, fragment_length};
ghost use Rattle.cas_fragments.specs.Allowed.{AreShort, CellHasRoom, ColumnHasRoom, HaveRoom, HasSpelling};

use crate::lengths::{columns_len, fragment_len};
use cas_atoms::{PathCell, Row, RowColumn};
use cas_bounds::Cut;
use cas_cell::{Deletion, Liveness};
use cas_codec::{put_bytes16, put_flag, put_u8, put_u16, put_u32};
use cas_records::{put_cell, put_clustering, put_cut, put_deletion, put_live};
use cas_streams::Fragment;
use cas_types::Mem;

/// Adds a deletion that may be there.
pub(crate) fn put_maybe_deletion(out: &mut Vec<u8>, deletion: Option<Deletion>) -> Result<(), Mem>
    ensures written { OnOk result (out.new.items ≡ out.old.items ++ maybe deletion_bytes deletion) }
    ensures length { OnOk result (vec_len out.new ≡ vec_len out.old + maybe_deletion_length deletion) }
    ensures full { OnErr result (vec_capacity out.old < vec_len out.old + maybe_deletion_length deletion) }
    ensures capacity { vec_capacity out.old ≤ vec_capacity out.new }
{
    match deletion {
        None => put_flag(out, false),
        Some(deletion) => {
            put_flag(out, true)?;
            put_deletion(out, &deletion)
        }
    }
}

// Adds what an `INSERT` left of a row, which may be there.
fn put_maybe_live(out: &mut Vec<u8>, live: Option<Liveness>) -> Result<(), Mem>
    ensures written { OnOk result (out.new.items ≡ out.old.items ++ maybe live_bytes live) }
    ensures length { OnOk result (vec_len out.new ≡ vec_len out.old + maybe_live_length live) }
    ensures full { OnErr result (vec_capacity out.old < vec_len out.old + maybe_live_length live) }
    ensures capacity { vec_capacity out.old ≤ vec_capacity out.new }
{
    match live {
        None => put_flag(out, false),
        Some(live) => {
            put_flag(out, true)?;
            put_live(out, &live)
        }
    }
}

// Adds a cell after its path.
fn put_path_cell(out: &mut Vec<u8>, cell: &PathCell) -> Result<(), Mem>
    requires { CellHasRoom cell.now }
    ensures written { OnOk result (out.new.items ≡ out.old.items ++ path_cell_bytes cell.now) }
    ensures length { OnOk result (vec_len out.new ≡ vec_len out.old + path_cell_length cell.now) }
    ensures full { OnErr result (vec_capacity out.old < vec_len out.old + path_cell_length cell.now) }
    ensures capacity { vec_capacity out.old ≤ vec_capacity out.new }
{
    put_bytes16(out, cell.path.as_slice())?;
    put_cell(out, &cell.cell)
}

// Adds each of the cells.
#[tactic(auto, using(crate::proofs::LengthLaws::cells_longer))]
fn put_each_cell(out: &mut Vec<u8>, cells: &[PathCell]) -> Result<(), Mem>
    requires { AllByRecursion CellHasRoom cells.now }
    ensures written { OnOk result (out.new.items ≡ out.old.items ++ flat_map path_cell_bytes cells.now) }
    ensures length { OnOk result (vec_len out.new ≡ vec_len out.old + sum_by path_cell_length cells.now) }
    ensures full { OnErr result (vec_capacity out.old < vec_len out.old + sum_by path_cell_length cells.now) }
    ensures capacity { vec_capacity out.old ≤ vec_capacity out.new }
{
    let mut rest = cells;
    while let [cell, others @ ..] = rest {
        put_path_cell(out, cell)?;
        rest = others;
    }
    Ok(())
}

// Adds what there is of a column.
fn put_column(out: &mut Vec<u8>, column: &RowColumn) -> Result<(), Mem>
    requires { ColumnHasRoom column.now }
    ensures written { OnOk result (out.new.items ≡ out.old.items ++ column_bytes column.now) }
    ensures length { OnOk result (vec_len out.new ≡ vec_len out.old + column_length column.now) }
    ensures full { OnErr result (vec_capacity out.old < vec_len out.old + column_length column.now) }
    ensures capacity { vec_capacity out.old ≤ vec_capacity out.new }
{
    put_u16(out, column.column.number)?;
    put_maybe_deletion(out, column.deletion)?;
    let cells = column.cells.as_slice();
    put_u32(out, cells.len() as u32)?;
    put_each_cell(out, cells)
}

// Adds each of the columns.
#[tactic(auto, using(crate::proofs::LengthLaws::columns_longer))]
fn put_each_column(out: &mut Vec<u8>, columns: &[RowColumn]) -> Result<(), Mem>
    requires { AllByRecursion ColumnHasRoom columns.now }
    ensures written { OnOk result (out.new.items ≡ out.old.items ++ flat_map column_bytes columns.now) }
    ensures length { OnOk result (vec_len out.new ≡ vec_len out.old + sum_by column_length columns.now) }
    ensures full { OnErr result (vec_capacity out.old < vec_len out.old + sum_by column_length columns.now) }
    ensures capacity { vec_capacity out.old ≤ vec_capacity out.new }
{
    let mut rest = columns;
    while let [column, others @ ..] = rest {
        put_column(out, column)?;
        rest = others;
    }
    Ok(())
}

/// Adds columns; where memory ran out, a part of them may stand there, as below.
pub(crate) fn put_column_parts(out: &mut Vec<u8>, columns: &[RowColumn]) -> Result<(), Mem>
    requires { HaveRoom columns.now }
    ensures written { OnOk result (out.new.items ≡ out.old.items ++ columns_bytes columns.now) }
    ensures length { OnOk result (vec_len out.new ≡ vec_len out.old + columns_length columns.now) }
    ensures full { OnErr result (vec_capacity out.old < vec_len out.old + columns_length columns.now) }
    ensures capacity { vec_capacity out.old ≤ vec_capacity out.new }
{
    put_u16(out, columns.len() as u16)?;
    put_each_column(out, columns)
}

/// Adds the columns of a row, or of the static row.
pub fn put_columns(out: &mut Vec<u8>, columns: &[RowColumn]) -> Result<(), Mem>
    requires { HaveRoom columns.now }
    ensures written { OnOk result (out.new.items ≡ out.old.items ++ columns_bytes columns.now) }
    ensures length { OnOk result (vec_len out.new ≡ vec_len out.old + columns_length columns.now) }
    ensures unchanged { OnErr result (out.new.items ≡ out.old.items) }
    ensures full { OnErr result (vec_capacity out.old < vec_len out.old + columns_length columns.now) }
    ensures capacity { vec_capacity out.old ≤ vec_capacity out.new }
{
    out.reserve(columns_len(columns))?;
    put_column_parts(out, columns)
}

fn put_row(out: &mut Vec<u8>, row: &Row) -> Result<(), Mem>
    requires place { AreShort row.now.clustering.values }
    requires columns { HaveRoom row.now.columns }
    ensures written { OnOk result (out.new.items ≡ out.old.items ++ row_bytes row.now) }
    ensures length { OnOk result (vec_len out.new ≡ vec_len out.old + row_length row.now) }
    ensures full { OnErr result (vec_capacity out.old < vec_len out.old + row_length row.now) }
    ensures capacity { vec_capacity out.old ≤ vec_capacity out.new }
{
    put_clustering(out, &row.clustering)?;
    put_maybe_deletion(out, row.deletion)?;
    put_maybe_live(out, row.live)?;
    put_column_parts(out, row.columns.as_slice())
}

fn put_marker(out: &mut Vec<u8>, cut: &Cut, deletion: Option<Deletion>) -> Result<(), Mem>
    requires { AreShort cut.now.prefix }
    ensures written { OnOk result (out.new.items ≡ out.old.items ++ marker_bytes cut.now deletion) }
    ensures length { OnOk result (vec_len out.new ≡ vec_len out.old + (cut_length cut.now + maybe_deletion_length deletion)) }
    ensures full { OnErr result (vec_capacity out.old < vec_len out.old + (cut_length cut.now + maybe_deletion_length deletion)) }
    ensures capacity { vec_capacity out.old ≤ vec_capacity out.new }
{
    put_cut(out, cut)?;
    put_maybe_deletion(out, deletion)
}

fn put_parts(out: &mut Vec<u8>, fragment: &Fragment) -> Result<(), Mem>
    requires { HasSpelling fragment.now }
    ensures written { OnOk result (out.new.items ≡ out.old.items ++ fragment_bytes fragment.now) }
    ensures length { OnOk result (vec_len out.new ≡ vec_len out.old + fragment_length fragment.now) }
    ensures full { OnErr result (vec_capacity out.old < vec_len out.old + fragment_length fragment.now) }
    ensures capacity { vec_capacity out.old ≤ vec_capacity out.new }
{
    match fragment {
        Fragment::Static(_) => Ok(()),
        Fragment::Row(row) => {
            put_u8(out, 1)?;
            put_row(out, row)
        }
        Fragment::Marker(cut, deletion) => {
            put_u8(out, 2)?;
            put_marker(out, cut, *deletion)
        }
    }
}

/// Adds a row or a marker; of static columns nothing, since they stand at their partition's head.
pub fn put_fragment(out: &mut Vec<u8>, fragment: &Fragment) -> Result<(), Mem>
    requires { HasSpelling fragment.now }
    ensures written { OnOk result (out.new.items ≡ out.old.items ++ fragment_bytes fragment.now) }
    ensures length { OnOk result (vec_len out.new ≡ vec_len out.old + fragment_length fragment.now) }
    ensures unchanged { OnErr result (out.new.items ≡ out.old.items) }
    ensures full { OnErr result (vec_capacity out.old < vec_len out.old + fragment_length fragment.now) }
    ensures capacity { vec_capacity out.old ≤ vec_capacity out.new }
{
    out.reserve(fragment_len(fragment))?;
    put_parts(out, fragment)
}
