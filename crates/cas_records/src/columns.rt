//! Columns by their numbers, and the paths of their cells, as bytes.

ghost use Rattle.std.specs.Prelude.{◌≡◌};
ghost use Rattle.cas_codec.specs.Reading.{Gives};
ghost use Rattle.cas_records.specs.Columns.{is_wanted, has_path, column_at, path_at};

use cas_atoms::ColumnRef;
use cas_codec::{ReadFault, Reader};
use cas_types::{Bytes, Column, LIST_PATH, Shape, check};
use std::alloc::Global;

/// Which columns may be named: regular or static ones, and of these all or the collections alone.
#[derive(Clone, Copy)]
pub enum Wanted {
    Regular,
    Static,
    RegularCollection,
    StaticCollection,
}

fn is_wanted(wanted: Wanted, column: &Column) -> bool
    ensures { result ≡ is_wanted wanted column.now }
{
    match wanted {
        Wanted::Regular => column.kind.is_regular(),
        Wanted::Static => column.kind.is_static(),
        Wanted::RegularCollection => column.kind.is_regular() && !column.shape.is_plain(),
        Wanted::StaticCollection => column.kind.is_static() && !column.shape.is_plain(),
    }
}

/// Reads the number of a column, which must be one of those wanted, and gives the column.
#[tactic(auto, unfolding(crate::specs::Columns::column_at))]
pub fn read_column<'a>(
    reader: &mut Reader<'_>,
    columns: &'a [Column],
    wanted: Wanted,
) -> Result<(ColumnRef, &'a Column), ReadFault>
    ensures { Gives (λ p. (p.0, p.1.now)) result reader.new (column_at wanted columns.now reader.old) }
{
    let at = reader.at();
    let number = reader.u16()?;
    let Some(column) = columns.get(number as usize) else {
        return Err(ReadFault::Bad { at });
    };
    if !is_wanted(wanted, column) {
        return Err(ReadFault::Bad { at });
    }
    let path = column.path_type();
    Ok((ColumnRef { number, path }, column))
}

// Whether a cell of the column may stand at that path.
#[tactic(auto, unfolding(crate::specs::Columns::has_path))]
fn has_path(column: &Column, bytes: &[u8]) -> bool
    ensures { result ≡ has_path column.now bytes.now }
{
    match column.shape {
        Shape::One => bytes.is_empty(),
        Shape::Set => check(column.tag, bytes).is_ok(),
        Shape::List => bytes.len() as u64 == LIST_PATH,
        Shape::Map => check(column.tag, bytes).is_ok(),
    }
}

/// Reads the path of a cell of the column.
#[tactic(auto, unfolding(crate::specs::Columns::path_at))]
pub fn read_path(
    alloc: Global,
    reader: &mut Reader<'_>,
    column: &Column,
) -> Result<Bytes, ReadFault>
    ensures { Gives (λ b. b) result reader.new (path_at column.now reader.old) }
{
    let at = reader.at();
    let bytes = reader.bytes16()?;
    if !has_path(column, bytes) {
        return Err(ReadFault::Bad { at });
    }
    Ok(Bytes::copy_of(alloc, bytes)?)
}
