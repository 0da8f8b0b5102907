//! Columns of rows and of the static row, as bytes.

ghost use Rattle.std.specs.Prelude.{◌≡◌, None, option_map};
ghost use Rattle.std.specs.Ordering.{nat_cmp};
ghost use Rattle.cas_types.specs.Schemas.{is_plain, path_type};
ghost use Rattle.cas_codec.specs.Reading.{Gives, maybe_at};
ghost use Rattle.cas_atoms.specs.RowsAndPaths.{path_cmp};
ghost use Rattle.cas_records.specs.Reading.{deletion_at};
ghost use Rattle.cas_fragments.specs.Reading.{is_above, chain_at, next_path_at, path_cell_at, cells_at};
ghost use Rattle.cas_fragments.specs.Reading.{none_at, emptied_at, next_column_at, row_column_at, columns_at};
ghost use Rattle.cas_fragments.specs.Inner.Counts.{cell_count_at, column_count_at};
ghost use Rattle.cas_fragments.specs.Inner.Lasts.{last_key};

use cas_atoms::{ColumnRef, PathCell, RowColumn, compare_paths};
use cas_cell::Deletion;
use cas_codec::{ReadFault, Reader};
use cas_records::{Wanted, read_cell, read_column, read_deletion, read_path};
use cas_types::{Bytes, Column, List};
use std::alloc::Global;

// For so many columns or cells there is room at once, whatever number of them is told.
const AT_ONCE: usize = 16;

/// A deletion that may be there.
#[tactic(auto, unfolding(cas_codec::specs::Reading::maybe_at))]
pub(crate) fn read_maybe_deletion(reader: &mut Reader<'_>) -> Result<Option<Deletion>, ReadFault>
    ensures { Gives (λ d. d) result reader.new (maybe_at deletion_at reader.old) }
{
    match reader.flag()? {
        true => Ok(Some(read_deletion(reader)?)),
        false => Ok(None),
    }
}

// The path of the last of these cells.
fn last_path(cells: &[PathCell]) -> Option<&[u8]>
    ensures { option_map (λ p. p.now) result ≡ last_key (λ c. c.path) cells.now }
{
    match cells.last() {
        Some(cell) => Some(cell.path.as_slice()),
        None => None,
    }
}

// Whether a path stands above those of these cells.
fn is_next_path(column: &Column, cells: &[PathCell], path: &[u8]) -> bool
    ensures { result ≡ is_above (path_cmp (path_type column.now.shape column.now.tag)) (last_key (λ c. c.path) cells.now) path.now }
{
    match last_path(cells) {
        Some(before) => compare_paths(column.path_type(), before, path).is_lt(),
        None => true,
    }
}

// The path of a cell behind these.
#[tactic(auto, unfolding(crate::specs::Reading::next_path_at, cas_codec::specs::Reading::checked))]
fn read_next_path(
    alloc: Global,
    reader: &mut Reader<'_>,
    column: &Column,
    cells: &[PathCell],
) -> Result<Bytes, ReadFault>
    ensures { Gives (λ b. b) result reader.new (next_path_at column.now (last_key (λ c. c.path) cells.now) reader.old) }
{
    let at = reader.at();
    let path = read_path(alloc, reader, column)?;
    if !is_next_path(column, cells, path.as_slice()) {
        return Err(ReadFault::Bad { at });
    }
    Ok(path)
}

// A cell behind these, after its path.
#[tactic(auto, unfolding(crate::specs::Reading::path_cell_at))]
fn read_path_cell(
    alloc: Global,
    reader: &mut Reader<'_>,
    column: &Column,
    cells: &[PathCell],
) -> Result<PathCell, ReadFault>
    ensures { Gives (λ c. c) result reader.new (path_cell_at column.now (last_key (λ c. c.path) cells.now) reader.old) }
{
    let path = read_next_path(alloc, reader, column, cells)?;
    let cell = read_cell(alloc, reader, column)?;
    Ok(PathCell { path, cell })
}

// So many cells.
fn read_each_cell(
    alloc: Global,
    reader: &mut Reader<'_>,
    column: &Column,
    count: u32,
) -> Result<Vec<PathCell>, ReadFault>
    ensures { Gives (λ v. v.items) result reader.new (chain_at (λ c. c.path) (path_cell_at column.now) count None reader.old) }
{
    let mut cells = Vec::with_capacity(alloc, (count as usize).min(AT_ONCE))?;
    for _done in 0..count {
        match read_path_cell(alloc, reader, column, &cells) {
            Ok(cell) => cells.push(cell)?,
            Err(fault) => return Err(fault),
        }
    }
    Ok(cells)
}

// How many cells the column has.
#[tactic(auto, unfolding(crate::specs::Inner::Counts::cell_count_at, cas_codec::specs::Reading::checked))]
fn read_cell_count(
    reader: &mut Reader<'_>,
    column: &Column,
    deletion: Option<Deletion>,
) -> Result<u32, ReadFault>
    ensures { Gives (λ n. n) result reader.new (cell_count_at column.now deletion reader.old) }
{
    let at = reader.at();
    let count = reader.u32()?;
    if (deletion.is_some() || count > 0) && (!column.shape.is_plain() || count <= 1) {
        return Ok(count);
    }
    Err(ReadFault::Bad { at })
}

#[tactic(auto, unfolding(crate::specs::Reading::cells_at, crate::specs::Inner::Counts::cell_count_at))]
fn read_cells(
    alloc: Global,
    reader: &mut Reader<'_>,
    column: &Column,
    deletion: Option<Deletion>,
) -> Result<List<PathCell>, ReadFault>
    ensures { Gives (λ l. l) result reader.new (cells_at column.now deletion reader.old) }
{
    let count = read_cell_count(reader, column, deletion)?;
    let cells = read_each_cell(alloc, reader, column, count)?;
    Ok(List::from_vec(cells))
}

// No deletion.
#[tactic(auto, unfolding(crate::specs::Reading::none_at, cas_codec::specs::Reading::checked))]
fn read_none(reader: &mut Reader<'_>) -> Result<Option<Deletion>, ReadFault>
    ensures { Gives (λ d. d) result reader.new (none_at reader.old) }
{
    let at = reader.at();
    if reader.flag()? {
        return Err(ReadFault::Bad { at });
    }
    Ok(None)
}

// The deletion of all of the column, if there is one.
#[tactic(auto, unfolding(crate::specs::Reading::emptied_at))]
fn read_emptied(reader: &mut Reader<'_>, column: &Column) -> Result<Option<Deletion>, ReadFault>
    ensures { Gives (λ d. d) result reader.new (emptied_at column.now reader.old) }
{
    if column.shape.is_plain() {
        read_none(reader)
    } else {
        read_maybe_deletion(reader)
    }
}

// The number of the last of these columns.
fn last_number(columns: &[RowColumn]) -> Option<u16>
    ensures { result ≡ last_key (λ c. c.column.number) columns.now }
{
    match columns.last() {
        Some(column) => Some(column.column.number),
        None => None,
    }
}

// Whether a column's number is above those of these columns.
fn is_next_number(columns: &[RowColumn], number: u16) -> bool
    ensures { result ≡ is_above nat_cmp (last_key (λ c. c.column.number) columns.now) number }
{
    match last_number(columns) {
        Some(before) => before < number,
        None => true,
    }
}

// A column that is wanted, behind these.
#[tactic(auto, unfolding(crate::specs::Reading::next_column_at, cas_codec::specs::Reading::checked))]
fn read_next_column<'a>(
    reader: &mut Reader<'_>,
    columns: &'a [Column],
    wanted: Wanted,
    before: &[RowColumn],
) -> Result<(ColumnRef, &'a Column), ReadFault>
    ensures { Gives (λ p. (p.0, p.1.now)) result reader.new (next_column_at wanted columns.now (last_key (λ c. c.column.number) before.now) reader.old) }
{
    let at = reader.at();
    let (named, column) = read_column(reader, columns, wanted)?;
    if !is_next_number(before, named.number) {
        return Err(ReadFault::Bad { at });
    }
    Ok((named, column))
}

// What there is of a column, behind these.
#[tactic(auto, unfolding(crate::specs::Reading::row_column_at))]
fn read_row_column(
    alloc: Global,
    reader: &mut Reader<'_>,
    columns: &[Column],
    wanted: Wanted,
    before: &[RowColumn],
) -> Result<RowColumn, ReadFault>
    ensures { Gives (λ c. c) result reader.new (row_column_at wanted columns.now (last_key (λ c. c.column.number) before.now) reader.old) }
{
    let (named, column) = read_next_column(reader, columns, wanted, before)?;
    let deletion = read_emptied(reader, column)?;
    let cells = read_cells(alloc, reader, column, deletion)?;
    Ok(RowColumn {
        column: named,
        deletion,
        cells,
    })
}

// So many columns.
fn read_each_column(
    alloc: Global,
    reader: &mut Reader<'_>,
    columns: &[Column],
    wanted: Wanted,
    count: u16,
) -> Result<Vec<RowColumn>, ReadFault>
    ensures { Gives (λ v. v.items) result reader.new (chain_at (λ c. c.column.number) (row_column_at wanted columns.now) count None reader.old) }
{
    let mut found = Vec::with_capacity(alloc, (count as usize).min(AT_ONCE))?;
    for _done in 0..count {
        match read_row_column(alloc, reader, columns, wanted, &found) {
            Ok(column) => found.push(column)?,
            Err(fault) => return Err(fault),
        }
    }
    Ok(found)
}

/// Reads columns of that kind, at least so many.
#[tactic(auto, unfolding(crate::specs::Reading::columns_at, crate::specs::Inner::Counts::column_count_at))]
pub(crate) fn read_at_least(
    alloc: Global,
    reader: &mut Reader<'_>,
    columns: &[Column],
    wanted: Wanted,
    least: u16,
) -> Result<List<RowColumn>, ReadFault>
    ensures { Gives (λ l. l) result reader.new (columns_at wanted least columns.now reader.old) }
{
    let count = read_column_count(reader, least)?;
    let found = read_each_column(alloc, reader, columns, wanted, count)?;
    Ok(List::from_vec(found))
}

// The number of columns, at least so many.
#[tactic(auto, unfolding(crate::specs::Inner::Counts::column_count_at, cas_codec::specs::Reading::checked))]
fn read_column_count(reader: &mut Reader<'_>, least: u16) -> Result<u16, ReadFault>
    ensures { Gives (λ n. n) result reader.new (column_count_at least reader.old) }
{
    let at = reader.at();
    let count = reader.u16()?;
    if least <= count {
        return Ok(count);
    }
    Err(ReadFault::Bad { at })
}

/// Reads what there is of a row's columns, or of the static row's: those of the table that are
/// wanted, by ascending number.
pub fn read_columns(
    alloc: Global,
    reader: &mut Reader<'_>,
    columns: &[Column],
    wanted: Wanted,
) -> Result<List<RowColumn>, ReadFault>
    ensures { Gives (λ l. l) result reader.new (columns_at wanted 0 columns.now reader.old) }
{
    read_at_least(alloc, reader, columns, wanted, 0)
}
