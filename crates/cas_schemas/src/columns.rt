//! Reads columns.

ghost use Rattle.std.specs.Prelude.{◌≡◌, ◌≤◌, drop, vec_len, IfOk, OnOk};
ghost use Rattle.std.specs.List.{list_all, list_any};
ghost use Rattle.cas_types.specs.Schemas.{is_partition, is_clustering, is_key};
ghost use Rattle.cas_codec.specs.Reading.{Gives, checked};
ghost use Rattle.cas_schemas.specs.Codes.{coded_at, kind_of, shape_of};
ghost use Rattle.cas_schemas.specs.Columns.{has_some, comes_after, may_stand, may_have};
ghost use Rattle.cas_schemas.specs.Each.{each_at};
ghost use Rattle.cas_schemas.specs.Inner.Behind.{behind};
ghost use Rattle.cas_schemas.specs.Reading.{second_at, types_at, column_at, columns_at};

use crate::codes::{read_kind, read_shape, read_tag};
use crate::names::read_column_name;
use cas_codec::{ReadFault, Reader};
use cas_types::{Column, Kind, List, Shape, TypeTag};
use std::alloc::{AllocError, Global};

fn has_key_alone(before: &[Column]) -> bool
    ensures { result ≡ list_all (λ c. is_key c.kind) before.now }
{
    before.iter().all(|column| column.kind.is_key())
}

fn has_partition_alone(before: &[Column]) -> bool
    ensures { result ≡ list_all (λ c. is_partition c.kind) before.now }
{
    before.iter().all(|column| column.kind.is_partition())
}

fn has_clustering(before: &[Column]) -> bool
    ensures { result ≡ list_any (λ c. is_clustering c.kind) before.now }
{
    before.iter().any(|column| column.kind.is_clustering())
}

// Whether a column of the kind may come after these.
fn comes_after(before: &[Column], kind: Kind) -> bool
    ensures { result ≡ comes_after before.now kind }
{
    match kind {
        Kind::Partition => has_partition_alone(before),
        Kind::Ascending => !before.is_empty() && has_key_alone(before),
        Kind::Descending => !before.is_empty() && has_key_alone(before),
        Kind::Static => has_clustering(before),
        Kind::Regular => !before.is_empty(),
    }
}

#[tactic(auto, unfolding(cas_codec::specs::Reading::checked))]
fn read_kind_behind(
    reader: &mut Reader<'_>,
    new: bool,
    before: &[Column],
) -> Result<Kind, ReadFault>
    ensures { Gives (λ k. k) result reader.new (checked (may_stand new before.now) (coded_at 4 kind_of) reader.old) }
{
    let at = reader.at();
    let kind = read_kind(reader)?;
    if comes_after(before, kind) && (new || !kind.is_key()) {
        return Ok(kind);
    }
    Err(ReadFault::Bad { at })
}

#[tactic(auto, unfolding(cas_codec::specs::Reading::checked))]
fn read_shape_of(reader: &mut Reader<'_>, kind: Kind) -> Result<Shape, ReadFault>
    ensures { Gives (λ s. s) result reader.new (checked (may_have kind) (coded_at 3 shape_of) reader.old) }
{
    let at = reader.at();
    let shape = read_shape(reader)?;
    if shape.is_plain() || !kind.is_key() {
        return Ok(shape);
    }
    Err(ReadFault::Bad { at })
}

// The type of a map's values.
fn read_second(reader: &mut Reader<'_>, there: bool) -> Result<Option<TypeTag>, ReadFault>
    ensures { Gives (λ t. t) result reader.new (second_at there reader.old) }
{
    match there {
        false => Ok(None),
        true => {
            let tag = read_tag(reader)?;
            Ok(Some(tag))
        }
    }
}

#[tactic(auto, unfolding(crate::specs::Reading::types_at))]
fn read_types(
    reader: &mut Reader<'_>,
    kind: Kind,
) -> Result<(Shape, TypeTag, Option<TypeTag>), ReadFault>
    ensures { Gives (λ t. t) result reader.new (types_at kind reader.old) }
{
    let shape = read_shape_of(reader, kind)?;
    let tag = read_tag(reader)?;
    let second = read_second(reader, shape.is_map())?;
    Ok((shape, tag, second))
}

// A column that stands behind these, in a table that is new or not.
#[tactic(auto, unfolding(crate::specs::Reading::column_at))]
fn read_column(
    alloc: Global,
    reader: &mut Reader<'_>,
    new: bool,
    before: &[Column],
) -> Result<Column, ReadFault>
    ensures { Gives (λ c. c) result reader.new (column_at new before.now reader.old) }
{
    let name = read_column_name(alloc, reader, before)?;
    let kind = read_kind_behind(reader, new, before)?;
    let (shape, tag, second) = read_types(reader, kind)?;
    Ok(Column {
        name,
        kind,
        shape,
        tag,
        second,
    })
}

// Adds so many columns behind those that are there.
fn add_each(
    alloc: Global,
    reader: &mut Reader<'_>,
    new: bool,
    count: u16,
    columns: &mut Vec<Column>,
) -> Result<(), ReadFault>
    ensures read { Gives (λ _. columns.new.items) result reader.new (behind columns.old.items (each_at (column_at new) count columns.old.items reader.old)) }
    ensures longer { OnOk result (vec_len columns.old ≤ vec_len columns.new) }
{
    for _done in 0..count {
        match read_column(alloc, reader, new, columns) {
            Ok(column) => columns.push(column)?,
            Err(fault) => return Err(fault),
        }
    }
    Ok(())
}

fn copy_of(columns: &List<Column>) -> Result<Vec<Column>, AllocError>
    ensures { IfOk result (λ copy. copy.items ≡ columns.now) }
{
    Ok(columns.clone()?.into_vec())
}

// The columns behind those that were there.
fn split_behind(columns: &mut Vec<Column>, count: usize) -> Result<List<Column>, AllocError>
    requires { count ≤ vec_len columns.old }
    ensures { IfOk result (λ added. added ≡ drop count columns.old.items) }
{
    Ok(List::from_vec(columns.split_off(count)?))
}

/// Reads from 1 up to so many columns that stand behind these, in a table that is new or not.
#[tactic(auto, unfolding(crate::specs::Reading::columns_at))]
pub fn read_columns(
    alloc: Global,
    reader: &mut Reader<'_>,
    limit: u16,
    new: bool,
    before: &List<Column>,
) -> Result<List<Column>, ReadFault>
    ensures { Gives (λ l. l) result reader.new (columns_at limit new before.now reader.old) }
{
    let count = reader.u16_within(1, limit)?;
    let mut columns = copy_of(before)?;
    add_each(alloc, reader, new, count, &mut columns)?;
    let added = split_behind(&mut columns, before.len())?;
    Ok(added)
}
