//! Columns of rows, passed over.

ghost use Rattle.std.specs.Prelude.{◌≡◌, None};
ghost use Rattle.std.specs.Option.{option_map};
ghost use Rattle.std.specs.Ordering.{nat_cmp};
ghost use Rattle.cas_types.specs.Schemas.{path_type};
ghost use Rattle.cas_codec.specs.Reading.{Gives, maybe_at};
ghost use Rattle.cas_atoms.specs.RowsAndPaths.{path_cmp};
ghost use Rattle.cas_records.specs.Reading.{deletion_at};
ghost use Rattle.cas_records.specs.declared.columns.Wanted.TheVariants.{Regular};
ghost use Rattle.cas_fragments.specs.Reading.{is_above, chain_at, next_path_at, path_cell_at, cells_at, is_count};
ghost use Rattle.cas_fragments.specs.Reading.{none_at, emptied_at, next_column_at, row_column_at, columns_at};
ghost use Rattle.cas_fragments.specs.Inner.Counts.{cell_count_at, column_count_at};
ghost use Rattle.cas_skips.specs.Told.{told, passed};

use crate::cells::{see_path, skip_cell};
use cas_atoms::{ColumnRef, compare_paths};
use cas_cell::Deletion;
use cas_codec::{ReadFault, Reader};
use cas_records::{Wanted, read_column, read_deletion};
use cas_types::Column;

/// A deletion that may be there.
#[tactic(auto, unfolding(cas_codec::specs::Reading::maybe_at))]
#[inline(always)]
pub(crate) fn read_maybe_deletion(reader: &mut Reader<'_>) -> Result<Option<Deletion>, ReadFault>
    ensures { Gives (λ d. d) result reader.new (maybe_at deletion_at reader.old) }
{
    match reader.flag()? {
        true => Ok(Some(read_deletion(reader)?)),
        false => Ok(None),
    }
}

// Whether a path stands above the one before it.
#[inline(always)]
fn is_next_path(column: &Column, before: Option<&[u8]>, path: &[u8]) -> bool
    ensures { result ≡ is_above (path_cmp (path_type column.now.shape column.now.tag)) (option_map (λ p. p.now) before.entry) path.now }
{
    match before {
        Some(before) => compare_paths(column.path_type(), before, path).is_lt(),
        None => true,
    }
}

// The path of a cell behind that one.
#[tactic(auto, unfolding(cas_fragments::specs::Reading::next_path_at, cas_codec::specs::Reading::checked))]
#[inline(always)]
fn see_next_path<'a>(
    reader: &mut Reader<'a>,
    column: &Column,
    before: Option<&[u8]>,
) -> Result<&'a [u8], ReadFault>
    ensures { Gives (λ b. b.now) result reader.new (next_path_at column.now (option_map (λ p. p.now) before.entry) reader.old) }
{
    let at = reader.at();
    let path = see_path(reader, column)?;
    if !is_next_path(column, before, path) {
        return Err(ReadFault::Bad { at });
    }
    Ok(path)
}

// The path of a cell behind that one, which is passed over.
#[tactic(auto, unfolding(cas_fragments::specs::Reading::path_cell_at))]
#[inline(always)]
fn skip_path_cell<'a>(
    reader: &mut Reader<'a>,
    column: &Column,
    before: Option<&[u8]>,
) -> Result<&'a [u8], ReadFault>
    ensures { Gives (λ b. b.now) result reader.new (told (λ c. c.path) (path_cell_at column.now (option_map (λ p. p.now) before.entry) reader.old)) }
{
    let path = see_next_path(reader, column, before)?;
    skip_cell(reader, column)?;
    Ok(path)
}

// So many cells.
#[inline(always)]
fn skip_each_cell(reader: &mut Reader<'_>, column: &Column, count: u32) -> Result<(), ReadFault>
    ensures { Gives (λ done. tt) result reader.new (passed (chain_at (λ c. c.path) (path_cell_at column.now) count None reader.old)) }
{
    let mut before = None;
    for _done in 0..count {
        match skip_path_cell(reader, column, before) {
            Ok(path) => before = Some(path),
            Err(fault) => return Err(fault),
        }
    }
    Ok(())
}

// How many cells the column has.
#[tactic(auto, unfolding(cas_fragments::specs::Inner::Counts::cell_count_at, cas_codec::specs::Reading::checked))]
#[inline(always)]
fn read_cell_count(
    reader: &mut Reader<'_>,
    column: &Column,
    deletion: Option<Deletion>,
) -> Result<u32, ReadFault>
    ensures { Gives (λ n. n) result reader.new (cell_count_at column.now deletion reader.old) }
{
    let at = reader.at();
    let count = reader.u32()?;
    if (deletion.is_some() || 0 < count) && (!column.shape.is_plain() || count <= 1) {
        return Ok(count);
    }
    Err(ReadFault::Bad { at })
}

// The cells of a column.
#[tactic(auto, unfolding(cas_fragments::specs::Reading::cells_at, cas_fragments::specs::Inner::Counts::cell_count_at))]
#[inline(always)]
fn skip_cells(
    reader: &mut Reader<'_>,
    column: &Column,
    deletion: Option<Deletion>,
) -> Result<(), ReadFault>
    ensures { Gives (λ done. tt) result reader.new (passed (cells_at column.now deletion reader.old)) }
{
    let count = read_cell_count(reader, column, deletion)?;
    skip_each_cell(reader, column, count)
}

// No deletion.
#[tactic(auto, unfolding(cas_fragments::specs::Reading::none_at, cas_codec::specs::Reading::checked))]
#[inline(always)]
fn read_none(reader: &mut Reader<'_>) -> Result<Option<Deletion>, ReadFault>
    ensures { Gives (λ d. d) result reader.new (none_at reader.old) }
{
    let at = reader.at();
    if reader.flag()? {
        return Err(ReadFault::Bad { at });
    }
    Ok(None)
}

// The deletion of all of the column, if there is one.
#[tactic(auto, unfolding(cas_fragments::specs::Reading::emptied_at))]
#[inline(always)]
fn read_emptied(reader: &mut Reader<'_>, column: &Column) -> Result<Option<Deletion>, ReadFault>
    ensures { Gives (λ d. d) result reader.new (emptied_at column.now reader.old) }
{
    if column.shape.is_plain() {
        read_none(reader)
    } else {
        read_maybe_deletion(reader)
    }
}

// Whether a column's number is above the one before it.
#[inline(always)]
fn is_next_number(before: Option<u16>, number: u16) -> bool
    ensures { result ≡ is_above nat_cmp before number }
{
    match before {
        Some(before) => before < number,
        None => true,
    }
}

// A column of rows, behind that one.
#[tactic(auto, unfolding(cas_fragments::specs::Reading::next_column_at, cas_codec::specs::Reading::checked))]
#[inline(always)]
fn read_next_column<'a>(
    reader: &mut Reader<'_>,
    columns: &'a [Column],
    before: Option<u16>,
) -> Result<(ColumnRef, &'a Column), ReadFault>
    ensures { Gives (λ p. (p.0, p.1.now)) result reader.new (next_column_at Regular columns.now before reader.old) }
{
    let at = reader.at();
    let (named, column) = read_column(reader, columns, Wanted::Regular)?;
    if !is_next_number(before, named.number) {
        return Err(ReadFault::Bad { at });
    }
    Ok((named, column))
}

// The number of a column behind that one, of which all is passed over.
#[tactic(auto, unfolding(cas_fragments::specs::Reading::row_column_at))]
#[inline(always)]
fn skip_row_column(
    reader: &mut Reader<'_>,
    columns: &[Column],
    before: Option<u16>,
) -> Result<u16, ReadFault>
    ensures { Gives (λ n. n) result reader.new (told (λ c. c.column.number) (row_column_at Regular columns.now before reader.old)) }
{
    let (named, column) = read_next_column(reader, columns, before)?;
    let deletion = read_emptied(reader, column)?;
    skip_cells(reader, column, deletion)?;
    Ok(named.number)
}

// So many columns.
#[inline(always)]
fn skip_each_column(
    reader: &mut Reader<'_>,
    columns: &[Column],
    count: u16,
) -> Result<(), ReadFault>
    ensures { Gives (λ done. tt) result reader.new (passed (chain_at (λ c. c.column.number) (row_column_at Regular columns.now) count None reader.old)) }
{
    let mut before = None;
    for _done in 0..count {
        match skip_row_column(reader, columns, before) {
            Ok(number) => before = Some(number),
            Err(fault) => return Err(fault),
        }
    }
    Ok(())
}

// The number of columns, at least so many.
#[tactic(auto, unfolding(cas_fragments::specs::Inner::Counts::column_count_at, cas_codec::specs::Reading::checked))]
#[inline(always)]
fn read_column_count(reader: &mut Reader<'_>, least: u16) -> Result<u16, ReadFault>
    ensures { Gives (λ n. n) result reader.new (column_count_at least reader.old) }
{
    let at = reader.at();
    let count = reader.u16()?;
    if least <= count {
        return Ok(count);
    }
    Err(ReadFault::Bad { at })
}

/// Passes over what there is of a row's columns, at least so many.
#[tactic(auto, unfolding(cas_fragments::specs::Reading::columns_at, cas_fragments::specs::Inner::Counts::column_count_at))]
#[inline(always)]
pub(crate) fn skip_columns(
    reader: &mut Reader<'_>,
    columns: &[Column],
    least: u16,
) -> Result<(), ReadFault>
    ensures { Gives (λ done. tt) result reader.new (passed (columns_at Regular least columns.now reader.old)) }
{
    let count = read_column_count(reader, least)?;
    skip_each_column(reader, columns, count)
}
