//! The rows that atoms write in, and the paths that they write in a column of a row, each once and
//! in order.

ghost use Rattle.std.specs.Prelude.{◌≡◌, ◌≤◌, length, insert, filter, IfOk, OnOk, MatchOption};
ghost use Rattle.std.specs.Bool.{then_some};
ghost use Rattle.std.specs.Option.{option_copied};
ghost use Rattle.cas_types.specs.Schemas.{path_type};
ghost use Rattle.cas_bounds.specs.Orders.{values_cmp};
ghost use Rattle.cas_atoms.specs.Coordinates.{path};
ghost use Rattle.cas_atoms.specs.Winners.{cell_winner};
ghost use Rattle.cas_atoms.specs.RowsAndPaths.{put, put_some, ordered, written_row, written_path, rows_of, path_cmp, is_alive, alive_paths};
ghost use Rattle.cas_atoms.specs.Inner.Places.{row_at};

use crate::atom::Atom;
use crate::coordinates::same_column;
use crate::place::{Partition, Place};
use crate::winners::cell_winner;
use cas_bounds::{Ordered, Values, compare_values};
use cas_cell::{Cell, alive};
use cas_types::{Bytes, Column, TypeTag, compare, compare_bytes};
use std::alloc::{AllocError, Global};
use std::cmp::Ordering;

// Where the row is to be put, if it isn't there.
fn place_of_row(order: &[Ordered], rows: &[Values], key: &Values) -> Option<usize>
    ensures { MatchOption result (put (values_cmp order.now) key.now rows.now ≡ rows.now)
        (λ i. (i ≤ length rows.now) × (put (values_cmp order.now) key.now rows.now ≡ insert rows.now i key.now)) }
{
    for (i, row) in rows.iter().enumerate() {
        match compare_values(order, key.as_slice(), row.as_slice()) {
            Ordering::Less => return Some(i),
            Ordering::Equal => return None,
            Ordering::Greater => {}
        }
    }
    Some(rows.len())
}

/// A copy of the values.
pub(crate) fn copy_values(values: &Values) -> Result<Values, AllocError>
    ensures { IfOk result (λ v. v ≡ values.now) }
{
    values.clone()
}

fn put_row(order: &[Ordered], rows: &mut Vec<Values>, key: &Values) -> Result<(), AllocError>
    ensures { OnOk result (rows.new.items ≡ put (values_cmp order.now) key.now rows.old.items) }
{
    if let Some(i) = place_of_row(order, rows, key) {
        let copy = copy_values(key)?;
        rows.insert(i, copy)?;
    }
    Ok(())
}

// The row that the atom writes in.
fn written_row(atom: &Atom) -> Option<&Values>
    ensures { option_copied result ≡ written_row atom.now }
{
    match atom {
        Atom::Live(c, _) => Some(&c.values),
        Atom::Write(c, _, _, _) => Some(&c.values),
        _ => None,
    }
}

fn put_written_row(order: &[Ordered], rows: &mut Vec<Values>, atom: &Atom) -> Result<(), AllocError>
    ensures { OnOk result (rows.new.items ≡ put_some (values_cmp order.now) rows.old.items (written_row atom.now)) }
{
    match written_row(atom) {
        Some(values) => put_row(order, rows, values),
        None => Ok(()),
    }
}

/// The rows that the atoms write in, in the table's order.
pub(crate) fn rows_of(
    alloc: Global,
    order: &[Ordered],
    atoms: &[Atom],
) -> Result<Vec<Values>, AllocError>
    ensures { IfOk result (λ v. v.items ≡ rows_of order.now atoms.now) }
{
    let mut rows = Vec::new(alloc);
    for atom in atoms {
        put_written_row(order, &mut rows, atom)?;
    }
    Ok(rows)
}

/// The order of the paths of a column that has that type of paths, or none.
pub fn compare_paths(tag: Option<TypeTag>, a: &[u8], b: &[u8]) -> Ordering
    ensures { result ≡ path_cmp tag a.now b.now }
{
    match tag {
        None => compare_bytes(a, b),
        Some(tag) => compare(tag, a, b),
    }
}

// Where the path is to be put, if it isn't there.
fn place_of_path(tag: Option<TypeTag>, paths: &[Bytes], key: &Bytes) -> Option<usize>
    ensures { MatchOption result (put (path_cmp tag) key.now paths.now ≡ paths.now)
        (λ i. (i ≤ length paths.now) × (put (path_cmp tag) key.now paths.now ≡ insert paths.now i key.now)) }
{
    for (i, other) in paths.iter().enumerate() {
        match compare_paths(tag, key.as_slice(), other.as_slice()) {
            Ordering::Less => return Some(i),
            Ordering::Equal => return None,
            Ordering::Greater => {}
        }
    }
    Some(paths.len())
}

fn put_path(tag: Option<TypeTag>, paths: &mut Vec<Bytes>, key: &Bytes) -> Result<(), AllocError>
    ensures { OnOk result (paths.new.items ≡ put (path_cmp tag) key.now paths.old.items) }
{
    if let Some(i) = place_of_path(tag, paths, key) {
        let copy = key.clone()?;
        paths.insert(i, copy)?;
    }
    Ok(())
}

fn path_where(holds: bool, bytes: &Bytes) -> Option<&Bytes>
    ensures { option_copied result ≡ then_some holds bytes.now }
{
    if holds { Some(bytes) } else { None }
}

// The path that the atom writes in that column of the row.
fn written_path<'a>(place: Place<'_>, atom: &'a Atom) -> Option<&'a Bytes>
    ensures { option_copied result ≡ written_path (row_at place.entry) place.entry.number atom.now }
{
    match atom {
        Atom::Write(c, column, bytes, _) => {
            let written = Place {
                row: Some(&c.values),
                number: column.number,
            };
            path_where(same_column(written, place), bytes)
        }
        Atom::StaticWrite(column, bytes, _) => {
            let written = Place {
                row: None,
                number: column.number,
            };
            path_where(same_column(written, place), bytes)
        }
        _ => None,
    }
}

fn put_written_path(
    column: &Column,
    paths: &mut Vec<Bytes>,
    place: Place<'_>,
    atom: &Atom,
) -> Result<(), AllocError>
    ensures { OnOk result (paths.new.items ≡
        put_some (path_cmp (path_type column.now.shape column.now.tag)) paths.old.items (written_path (row_at place.entry) place.entry.number atom.now)) }
{
    match written_path(place, atom) {
        Some(bytes) => put_path(column.path_type(), paths, bytes),
        None => Ok(()),
    }
}

// The paths that the atoms write in that column of the row, in order.
fn written_paths(
    alloc: Global,
    atoms: &[Atom],
    place: Place<'_>,
    column: &Column,
) -> Result<Vec<Bytes>, AllocError>
    ensures { IfOk result (λ v. v.items ≡
        ordered (path_cmp (path_type column.now.shape column.now.tag)) (written_path (row_at place.entry) place.entry.number) atoms.now) }
{
    let mut paths = Vec::new(alloc);
    for atom in atoms {
        put_written_path(column, &mut paths, place, atom)?;
    }
    Ok(paths)
}

// Whether there is a cell that shows its value at the moment.
fn is_alive(now: i64, cell: Option<&Cell>) -> bool
    ensures { result ≡ is_alive now (option_copied cell.entry) }
{
    match cell {
        Some(cell) => alive(cell, now),
        None => false,
    }
}

// Whether an alive cell wins at the path.
fn path_lives(partition: Partition<'_>, place: Place<'_>, bytes: &Bytes) -> bool
    ensures { result ≡ is_alive partition.entry.now (cell_winner partition.entry.atoms.now (path (row_at place.entry) place.entry.number bytes.now)) }
{
    is_alive(
        partition.now,
        cell_winner(partition.atoms, place, bytes.as_slice()),
    )
}

/// The paths of that column of the row at which an alive cell wins, in order.
pub(crate) fn alive_paths(
    alloc: Global,
    partition: Partition<'_>,
    place: Place<'_>,
    column: &Column,
) -> Result<Vec<Bytes>, AllocError>
    ensures { IfOk result (λ v. v.items ≡ alive_paths partition.entry.atoms.now partition.entry.now (row_at place.entry) place.entry.number column.now) }
{
    let written = written_paths(alloc, partition.atoms, place, column)?;
    let mut paths = Vec::new(alloc);
    for bytes in &written {
        if path_lives(partition, place, bytes) {
            paths.push(bytes.clone()?)?;
        }
    }
    Ok(paths)
}
