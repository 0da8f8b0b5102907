//! What a row shows for a pick: a column's value, the timestamp of its write, the seconds that it
//! has left.

ghost use Rattle.std.specs.Prelude.{◌≡◌, ◌≤ℤ◌, pos, IsTrue, take, slice_get, IfOk, IfSome};
ghost use Rattle.std.specs.List.{count_by};
ghost use Rattle.std.specs.Option.{option_copied, option_map};
ghost use Rattle.cas_types.specs.Schemas.{is_partition, is_clustering};
ghost use Rattle.cas_cell.specs.Cells.{cell_at, cell_lives};
ghost use Rattle.cas_atoms.specs.Coordinates.{row_key};
ghost use Rattle.cas_atoms.specs.Picks.{number_or_null, partition_value, clustering_value, regular_value, value_by_kind};
ghost use Rattle.cas_atoms.specs.Picks.{column_value, cell_by_kind, picked_cell, left_of, picked};
ghost use Rattle.cas_atoms.specs.Inner.Places.{row_at};

use crate::atom::Atom;
use crate::column_values::{one_or_null, plain_cell, shown_value};
use crate::partition_keys::key_values;
use crate::place::{Partition, Place};
use crate::query::{Datum, Pick, Query};
use cas_bounds::Values;
use cas_cell::Cell;
use cas_types::{Bytes, Column, Kind, TypeTag};
use std::alloc::{AllocError, Global};

fn partition_count(columns: &[Column]) -> usize
    ensures { result ≡ count_by (λ c. is_partition c.kind) columns.now }
{
    columns.iter().filter(|c| c.kind.is_partition()).count()
}

// How many of the first columns, as many as the number says, are clustering columns.
fn clustering_count(columns: &[Column], number: usize) -> usize
    ensures { result ≡ count_by (λ c. is_clustering c.kind) (take number columns.now) }
{
    columns[..number.min(columns.len())]
        .iter()
        .filter(|c| c.kind.is_clustering())
        .count()
}

fn value_at(values: &[Bytes], place: usize) -> Option<&[u8]>
    ensures { option_copied result ≡ slice_get values.now place }
{
    if place < values.len() {
        Some(values[place].as_slice())
    } else {
        None
    }
}

fn number_or_null(number: Option<i64>) -> Datum
    ensures { result ≡ number_or_null number }
{
    match number {
        Some(number) => Datum::Number(number),
        None => Datum::Null,
    }
}

// The value of the partition key's column of that number.
fn partition_value(
    alloc: Global,
    query: &Query,
    number: u16,
    tag: TypeTag,
) -> Result<Datum, AllocError>
    ensures { IfOk result (λ d. d ≡ partition_value query.now number tag) }
{
    let count = partition_count(query.columns.as_slice());
    let values = key_values(alloc, count, query.key.as_slice())?;
    one_or_null(alloc, tag, value_at(&values, number as usize))
}

// The value of the clustering column of that number, of which the static row has none.
fn clustering_value(
    alloc: Global,
    query: &Query,
    place: Place<'_>,
    tag: TypeTag,
) -> Result<Datum, AllocError>
    ensures { IfOk result (λ d. d ≡ clustering_value query.now (row_at place.entry) place.entry.number tag) }
{
    match place.row {
        Some(values) => {
            let before = clustering_count(query.columns.as_slice(), place.number as usize);
            one_or_null(alloc, tag, value_at(values.as_slice(), before))
        }
        None => Ok(Datum::Null),
    }
}

// A regular column's value, of which the static row has none.
fn regular_value(
    alloc: Global,
    partition: Partition<'_>,
    place: Place<'_>,
    column: &Column,
) -> Result<Datum, AllocError>
    ensures { IfOk result (λ d. d ≡ regular_value partition.entry.atoms.now partition.entry.now (row_at place.entry) place.entry.number column.now) }
{
    match place.row {
        Some(_) => shown_value(alloc, partition, place, column),
        None => Ok(Datum::Null),
    }
}

fn value_by_kind(
    alloc: Global,
    query: &Query,
    partition: Partition<'_>,
    place: Place<'_>,
    column: &Column,
) -> Result<Datum, AllocError>
    ensures { IfOk result (λ d. d ≡
        value_by_kind column.now.kind query.now partition.entry.atoms.now partition.entry.now (row_at place.entry) place.entry.number column.now) }
{
    let in_static_row = Place {
        row: None,
        number: place.number,
    };
    match column.kind {
        Kind::Partition => partition_value(alloc, query, place.number, column.tag),
        Kind::Ascending => clustering_value(alloc, query, place, column.tag),
        Kind::Descending => clustering_value(alloc, query, place, column.tag),
        Kind::Static => shown_value(alloc, partition, in_static_row, column),
        Kind::Regular => regular_value(alloc, partition, place, column),
    }
}

fn column_at(query: &Query, number: u16) -> Option<&Column>
    ensures { option_copied result ≡ slice_get query.now.columns number }
{
    query.columns.as_slice().get(number as usize)
}

fn column_value(
    alloc: Global,
    query: &Query,
    partition: Partition<'_>,
    place: Place<'_>,
    column: Option<&Column>,
) -> Result<Datum, AllocError>
    ensures { IfOk result (λ d. d ≡
        column_value query.now partition.entry.atoms.now partition.entry.now (row_at place.entry) place.entry.number (option_copied column.entry)) }
{
    match column {
        Some(column) => value_by_kind(alloc, query, partition, place, column),
        None => Ok(Datum::Null),
    }
}

fn cell_by_kind<'a>(kind: Kind, partition: Partition<'a>, place: Place<'_>) -> Option<&'a Cell>
    ensures cell { option_copied result ≡ cell_by_kind kind partition.entry.atoms.now partition.entry.now (row_at place.entry) place.entry.number }
    ensures alive { IfSome result (λ c. IsTrue (cell_lives partition.entry.now c.now)) }
{
    let in_static_row = Place {
        row: None,
        number: place.number,
    };
    match (kind, place.row) {
        (Kind::Static, _) => plain_cell(partition, in_static_row),
        (Kind::Regular, Some(_)) => plain_cell(partition, place),
        _ => None,
    }
}

// The alive cell that writetime and ttl speak of.
fn picked_cell<'a>(query: &Query, partition: Partition<'a>, place: Place<'_>) -> Option<&'a Cell>
    ensures cell { option_copied result ≡
        picked_cell query.now partition.entry.atoms.now partition.entry.now (row_at place.entry) place.entry.number
        (slice_get query.now.columns place.entry.number) }
    ensures alive { IfSome result (λ c. IsTrue (cell_lives partition.entry.now c.now)) }
{
    match column_at(query, place.number) {
        Some(column) => cell_by_kind(column.kind, partition, place),
        None => None,
    }
}

// The seconds until the cell expires, of which one with no TTL has none.
fn seconds_left(now: i64, cell: Option<&Cell>) -> Option<i64>
    requires begun { pos 0 ≤ℤ now }
    requires alive { IfSome cell (λ c. IsTrue (cell_lives now c.now)) }
    ensures { result ≡ left_of now (option_copied cell.entry) }
{
    match cell {
        Some(Cell::Expiring { expiry, .. }) => Some(*expiry - now),
        _ => None,
    }
}

fn write_time(cell: Option<&Cell>) -> Option<i64>
    ensures { result ≡ option_map cell_at (option_copied cell.entry) }
{
    match cell {
        Some(cell) => Some(cell.at()),
        None => None,
    }
}

/// What the row of these values, or with none the static row, shows for a pick.
#[tactic(auto, unfolding(crate::specs::Picks::picked))]
pub fn picked(
    alloc: Global,
    query: &Query,
    partition: Partition<'_>,
    row: Option<&Values>,
    pick: Pick,
) -> Result<Datum, AllocError>
    requires { pos 0 ≤ℤ partition.now }
    ensures { IfOk result (λ d. d ≡ picked query.now partition.entry.atoms.now partition.entry.now (row_key (option_copied row.entry)) pick) }
{
    match pick {
        Pick::Value(number) => {
            let place = Place { row, number };
            column_value(alloc, query, partition, place, column_at(query, number))
        }
        Pick::WriteTime(number) => {
            let place = Place { row, number };
            Ok(number_or_null(write_time(picked_cell(query, partition, place))))
        }
        Pick::Ttl(number) => {
            let cell = picked_cell(query, partition, Place { row, number });
            Ok(number_or_null(seconds_left(partition.now, cell)))
        }
    }
}
