//! Which rows are shown.

ghost use Rattle.std.specs.Prelude.{◌≡◌, ◌+◌, ◌<◌, ◌^◌, ◌&&◌, not, length, IfOk};
ghost use Rattle.std.specs.Option.{option_copied};
ghost use Rattle.cas_atoms.specs.Coordinates.{row_key, static_row};
ghost use Rattle.cas_atoms.specs.RowsAndPaths.{alive_paths};
ghost use Rattle.cas_atoms.specs.Answers.{AreNumbered, is_empty, has_kind, has_cell, is_living, is_shown};
ghost use Rattle.cas_atoms.specs.Inner.Places.{row_at};

use crate::atom::Atom;
use crate::place::{Partition, Place};
use crate::rows_and_paths::alive_paths;
use crate::winners::live_winner;
use cas_bounds::Values;
use cas_cell::{Liveness, live_alive};
use cas_types::{Column, Kind};
use std::alloc::{AllocError, Global};

// Whether the row has columns of that kind.
fn has_kind(row: Option<&Values>, kind: Kind) -> bool
    ensures { result ≡ has_kind (row_key (option_copied row.entry)) kind }
{
    match row {
        Some(_) => kind.is_regular(),
        None => kind.is_static(),
    }
}

// Whether the column of that number is one of the row's and has an alive cell there.
fn column_has_cell(
    alloc: Global,
    partition: Partition<'_>,
    place: Place<'_>,
    column: &Column,
) -> Result<bool, AllocError>
    ensures { IfOk result (λ b. b ≡ (has_kind (row_at place.entry) column.now.kind
        && not (is_empty (alive_paths partition.entry.atoms.now partition.entry.now (row_at place.entry) place.entry.number column.now)))) }
{
    if !has_kind(place.row, column.kind) {
        return Ok(false);
    }
    let paths = alive_paths(alloc, partition, place, column)?;
    Ok(!paths.is_empty())
}

// Whether some column of the row, of those from that number on, has an alive cell.
fn has_cell(
    alloc: Global,
    partition: Partition<'_>,
    place: Place<'_>,
    columns: &[Column],
) -> Result<bool, AllocError>
    requires { place.number + length columns.now < 2 ^ 16 }
    ensures { IfOk result (λ b. b ≡ has_cell partition.entry.atoms.now partition.entry.now (row_at place.entry) place.entry.number columns.now) }
{
    match columns {
        [] => Ok(false),
        [c, rest @ ..] => {
            if column_has_cell(alloc, partition, place, c)? {
                Ok(true)
            } else {
                let next = Place {
                    row: place.row,
                    number: place.number + 1,
                };
                has_cell(alloc, partition, next, rest)
            }
        }
    }
}

fn is_living(now: i64, live: Option<Liveness>) -> bool
    ensures { result ≡ is_living now live }
{
    match live {
        Some(live) => live_alive(&live, now),
        None => false,
    }
}

/// Whether the static row has an alive cell.
pub fn is_static_shown(
    alloc: Global,
    partition: Partition<'_>,
    columns: &[Column],
) -> Result<bool, AllocError>
    requires { AreNumbered columns.now }
    ensures { IfOk result (λ b. b ≡ has_cell partition.entry.atoms.now partition.entry.now static_row 0 columns.now) }
{
    has_cell(
        alloc,
        partition,
        Place {
            row: None,
            number: 0,
        },
        columns,
    )
}

/// Whether the row lives by its `INSERT` or has an alive cell.
pub fn is_shown(
    alloc: Global,
    partition: Partition<'_>,
    columns: &[Column],
    values: &Values,
) -> Result<bool, AllocError>
    requires { AreNumbered columns.now }
    ensures { IfOk result (λ b. b ≡ is_shown partition.entry.atoms.now partition.entry.now columns.now values.now) }
{
    if is_living(partition.now, live_winner(partition.atoms, values)) {
        return Ok(true);
    }
    has_cell(
        alloc,
        partition,
        Place {
            row: Some(values),
            number: 0,
        },
        columns,
    )
}
