//! What a row shows of a column that isn't of the primary key.

ghost use Rattle.std.specs.Prelude.{◌≡◌, IsTrue, map, IfOk, IfSome};
ghost use Rattle.std.specs.Option.{option_copied};
ghost use Rattle.cas_types.specs.declared.schema.Shape.TheVariants as shape;
ghost use Rattle.cas_cell.specs.Cells.{cell_lives};
ghost use Rattle.cas_atoms.specs.Picks.{one_or_null, set_or_null, list_or_null, map_or_null, living, alive_cell, plain_cell};
ghost use Rattle.cas_atoms.specs.Picks.{shown_element, shown_by_shape, shown_value};
ghost use Rattle.cas_atoms.specs.Inner.Places.{row_at};

use crate::place::{Partition, Place};
use crate::query::Datum;
use crate::rows_and_paths::alive_paths;
use crate::winners::cell_winner;
use cas_cell::{Cell, alive};
use cas_types::{Bytes, Column, List, Shape, TypeTag};
use std::alloc::{AllocError, Global};

/// A value that is there, or null.
pub(crate) fn one_or_null(
    alloc: Global,
    tag: TypeTag,
    value: Option<&[u8]>,
) -> Result<Datum, AllocError>
    ensures { IfOk result (λ d. d ≡ one_or_null tag (option_copied value.entry)) }
{
    match value {
        Some(bytes) => Ok(Datum::One(tag, Bytes::copy_of(alloc, bytes)?)),
        None => Ok(Datum::Null),
    }
}

fn set_or_null(tag: TypeTag, values: Vec<Bytes>) -> Datum
    ensures { result ≡ set_or_null tag values.items }
{
    if values.is_empty() {
        Datum::Null
    } else {
        Datum::Set(tag, List::from_vec(values))
    }
}

fn list_or_null(tag: TypeTag, values: Vec<Bytes>) -> Datum
    ensures { result ≡ list_or_null tag values.items }
{
    if values.is_empty() {
        Datum::Null
    } else {
        Datum::List(tag, List::from_vec(values))
    }
}

fn map_or_null(keys: TypeTag, values: TypeTag, entries: Vec<(Bytes, Bytes)>) -> Datum
    ensures { result ≡ map_or_null keys values entries.items }
{
    if entries.is_empty() {
        Datum::Null
    } else {
        Datum::Map(keys, values, List::from_vec(entries))
    }
}

// The cell, where it is alive at the moment.
fn living(now: i64, cell: Option<&Cell>) -> Option<&Cell>
    ensures cell { option_copied result ≡ living now (option_copied cell.entry) }
    ensures alive { IfSome result (λ c. IsTrue (cell_lives now c.now)) }
{
    match cell {
        Some(cell) if alive(cell, now) => Some(cell),
        _ => None,
    }
}

// The alive cell at that path of the column of the row.
fn alive_cell<'a>(partition: Partition<'a>, place: Place<'_>, bytes: &[u8]) -> Option<&'a Cell>
    ensures cell { option_copied result ≡
        alive_cell partition.entry.atoms.now partition.entry.now (row_at place.entry) place.entry.number bytes.now }
    ensures alive { IfSome result (λ c. IsTrue (cell_lives partition.entry.now c.now)) }
{
    living(partition.now, cell_winner(partition.atoms, place, bytes))
}

/// The alive cell of a plain column of the row.
pub(crate) fn plain_cell<'a>(partition: Partition<'a>, place: Place<'_>) -> Option<&'a Cell>
    ensures cell { option_copied result ≡ plain_cell partition.entry.atoms.now partition.entry.now (row_at place.entry) place.entry.number }
    ensures alive { IfSome result (λ c. IsTrue (cell_lives partition.entry.now c.now)) }
{
    alive_cell(partition, place, &[])
}

// The value of an element of a list, or of a key of a map.
fn shown_element<'a>(partition: Partition<'a>, place: Place<'_>, bytes: &[u8]) -> &'a [u8]
    ensures { result.now ≡ shown_element partition.entry.atoms.now partition.entry.now (row_at place.entry) place.entry.number bytes.now }
{
    match alive_cell(partition, place, bytes) {
        Some(cell) => cell.value(),
        None => &[],
    }
}

// The values of the elements of a list.
fn element_values(
    alloc: Global,
    partition: Partition<'_>,
    place: Place<'_>,
    paths: &[Bytes],
) -> Result<Vec<Bytes>, AllocError>
    ensures { IfOk result (λ v. v.items ≡ map (shown_element partition.entry.atoms.now partition.entry.now (row_at place.entry) place.entry.number) paths.now) }
{
    let mut values = Vec::new(alloc);
    for bytes in paths {
        let value = shown_element(partition, place, bytes.as_slice());
        values.push(Bytes::copy_of(alloc, value)?)?;
    }
    Ok(values)
}

// The keys of a map with their values.
fn map_entries(
    alloc: Global,
    partition: Partition<'_>,
    place: Place<'_>,
    paths: &[Bytes],
) -> Result<Vec<(Bytes, Bytes)>, AllocError>
    ensures { IfOk result (λ v. v.items ≡
        map (λ p. (p, shown_element partition.entry.atoms.now partition.entry.now (row_at place.entry) place.entry.number p)) paths.now) }
{
    let mut entries = Vec::new(alloc);
    for bytes in paths {
        let value = shown_element(partition, place, bytes.as_slice());
        entries.push((bytes.clone()?, Bytes::copy_of(alloc, value)?))?;
    }
    Ok(entries)
}

fn shown_list(
    alloc: Global,
    partition: Partition<'_>,
    place: Place<'_>,
    column: &Column,
) -> Result<Datum, AllocError>
    ensures { IfOk result (λ d. d ≡
        shown_by_shape shape.List partition.entry.atoms.now partition.entry.now (row_at place.entry) place.entry.number column.now) }
{
    let paths = alive_paths(alloc, partition, place, column)?;
    Ok(list_or_null(column.tag, element_values(alloc, partition, place, &paths)?))
}

fn shown_map(
    alloc: Global,
    partition: Partition<'_>,
    place: Place<'_>,
    column: &Column,
) -> Result<Datum, AllocError>
    ensures { IfOk result (λ d. d ≡
        shown_by_shape shape.Map partition.entry.atoms.now partition.entry.now (row_at place.entry) place.entry.number column.now) }
{
    let paths = alive_paths(alloc, partition, place, column)?;
    let entries = map_entries(alloc, partition, place, &paths)?;
    Ok(map_or_null(column.tag, column.value_type(), entries))
}

fn shown_one(
    alloc: Global,
    partition: Partition<'_>,
    place: Place<'_>,
    column: &Column,
) -> Result<Datum, AllocError>
    ensures { IfOk result (λ d. d ≡
        shown_by_shape shape.One partition.entry.atoms.now partition.entry.now (row_at place.entry) place.entry.number column.now) }
{
    match plain_cell(partition, place) {
        Some(cell) => one_or_null(alloc, column.tag, Some(cell.value())),
        None => Ok(Datum::Null),
    }
}

/// What the row shows of the column of that number.
pub(crate) fn shown_value(
    alloc: Global,
    partition: Partition<'_>,
    place: Place<'_>,
    column: &Column,
) -> Result<Datum, AllocError>
    ensures { IfOk result (λ d. d ≡ shown_value partition.entry.atoms.now partition.entry.now (row_at place.entry) place.entry.number column.now) }
{
    match column.shape {
        Shape::One => shown_one(alloc, partition, place, column),
        Shape::Set => {
            let paths = alive_paths(alloc, partition, place, column)?;
            Ok(set_or_null(column.tag, paths))
        }
        Shape::List => shown_list(alloc, partition, place, column),
        Shape::Map => shown_map(alloc, partition, place, column),
    }
}
