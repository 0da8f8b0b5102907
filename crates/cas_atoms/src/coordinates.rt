//! The places that a statement writes to, and which of them an atom writes or deletes. Where a row
//! is asked for by its values, no values mean the static row.

ghost use Rattle.std.specs.Prelude.{◌≡◌, ◌==◌, ◌&&◌};
ghost use Rattle.std.specs.Bool.{then_some};
ghost use Rattle.std.specs.Option.{option_copied};
ghost use Rattle.cas_atoms.specs.Coordinates.{row, path, row_key, same_values, same_bytes};
ghost use Rattle.cas_atoms.specs.Coordinates.{same_row, lies_between, is_at, deletion_at, live_at_row, cell_at_path};
ghost use Rattle.cas_atoms.specs.Inner.Places.{row_at};

use crate::atom::Atom;
use crate::place::Place;
use cas_bounds::{Cut, Values, between};
use cas_cell::{Cell, Deletion, Liveness};
use cas_types::{Bytes, compare_bytes};
use std::cmp::Ordering;

/// Whether both are the values of one row.
pub(crate) fn same_values(a: &[Bytes], b: &[Bytes]) -> bool
    ensures { result ≡ same_values a.now b.now }
{
    a.cmp(&b) == Ordering::Equal
}

/// Whether both are the same bytes.
pub(crate) fn same_bytes(a: &[u8], b: &[u8]) -> bool
    ensures { result ≡ same_bytes a.now b.now }
{
    compare_bytes(a, b) == Ordering::Equal
}

/// Whether both are one row.
pub(crate) fn same_row(a: Option<&Values>, b: Option<&Values>) -> bool
    ensures { result ≡ same_row (row_key (option_copied a.entry)) (row_key (option_copied b.entry)) }
{
    match (a, b) {
        (Some(a), Some(b)) => same_values(a.as_slice(), b.as_slice()),
        (Some(_), None) => false,
        (None, Some(_)) => false,
        (None, None) => true,
    }
}

/// Whether both are one column of one row.
pub(crate) fn same_column(a: Place<'_>, b: Place<'_>) -> bool
    ensures { result ≡ (same_row (row_at a.entry) (row_at b.entry) && (a.entry.number == b.entry.number)) }
{
    same_row(a.row, b.row) && a.number == b.number
}

/// Whether the row lies between the cuts. The static row lies between none.
pub(crate) fn lies_between(lo: &Cut, hi: &Cut, row: Option<&Values>) -> bool
    ensures { result ≡ lies_between lo.now hi.now (row_key (option_copied row.entry)) }
{
    match row {
        Some(values) => between(lo, hi, values.as_slice()),
        None => false,
    }
}

// The deletion, where there is reason to take it.
fn deletion_where(holds: bool, deletion: &Deletion) -> Option<Deletion>
    ensures { result ≡ then_some holds deletion.now }
{
    if holds { Some(*deletion) } else { None }
}

/// The deletion, where the atom is one that has the row's own place in its scope.
pub(crate) fn deletion_at_row(values: &Values, atom: &Atom) -> Option<Deletion>
    ensures { result ≡ deletion_at (row values.now) atom.now }
{
    match atom {
        Atom::PartitionDeletion(d) => Some(*d),
        Atom::RangeDeletion(lo, hi, d) => deletion_where(between(lo, hi, values.as_slice()), d),
        Atom::RowDeletion(c, d) => {
            deletion_where(same_values(c.values.as_slice(), values.as_slice()), d)
        }
        Atom::CollectionDeletion(_, _, _) => None,
        Atom::Live(_, _) => None,
        Atom::Write(_, _, _, _) => None,
        Atom::StaticWrite(_, _, _) => None,
        Atom::StaticCollectionDeletion(_, _) => None,
    }
}

/// The deletion, where the atom is one that has that path of that column of the row in its scope.
pub(crate) fn deletion_at_path(place: Place<'_>, bytes: &[u8], atom: &Atom) -> Option<Deletion>
    ensures { result ≡ deletion_at (path (row_at place.entry) place.entry.number bytes.now) atom.now }
{
    match atom {
        Atom::PartitionDeletion(d) => Some(*d),
        Atom::RangeDeletion(lo, hi, d) => deletion_where(lies_between(lo, hi, place.row), d),
        Atom::RowDeletion(c, d) => deletion_where(same_row(Some(&c.values), place.row), d),
        Atom::CollectionDeletion(c, column, d) => {
            let written = Place {
                row: Some(&c.values),
                number: column.number,
            };
            deletion_where(same_column(written, place), d)
        }
        Atom::Live(_, _) => None,
        Atom::Write(_, _, _, _) => None,
        Atom::StaticWrite(_, _, _) => None,
        Atom::StaticCollectionDeletion(column, d) => {
            let written = Place {
                row: None,
                number: column.number,
            };
            deletion_where(same_column(written, place), d)
        }
    }
}

/// What the atom, if it is an `INSERT`'s, leaves of the row itself.
pub(crate) fn live_at_row(values: &Values, atom: &Atom) -> Option<Liveness>
    ensures { result ≡ live_at_row values.now atom.now }
{
    match atom {
        Atom::Live(c, live) => {
            if same_values(c.values.as_slice(), values.as_slice()) {
                Some(*live)
            } else {
                None
            }
        }
        _ => None,
    }
}

// Whether what was written to that path of a column was written to this path of the place.
fn is_at(written: Place<'_>, at: &[u8], place: Place<'_>, bytes: &[u8]) -> bool
    ensures { result ≡ is_at (row_at written.entry) written.entry.number at.now (path (row_at place.entry) place.entry.number bytes.now) }
{
    same_column(written, place) && same_bytes(at, bytes)
}

fn cell_where(holds: bool, cell: &Cell) -> Option<&Cell>
    ensures { option_copied result ≡ then_some holds cell.now }
{
    if holds { Some(cell) } else { None }
}

/// The cell that the atom writes at that path of that column of the row.
pub(crate) fn cell_at_path<'a>(place: Place<'_>, bytes: &[u8], atom: &'a Atom) -> Option<&'a Cell>
    ensures { option_copied result ≡ cell_at_path (path (row_at place.entry) place.entry.number bytes.now) atom.now }
{
    match atom {
        Atom::Write(c, column, p, cell) => {
            let written = Place {
                row: Some(&c.values),
                number: column.number,
            };
            cell_where(is_at(written, p.as_slice(), place, bytes), cell)
        }
        Atom::StaticWrite(column, p, cell) => {
            let written = Place {
                row: None,
                number: column.number,
            };
            cell_where(is_at(written, p.as_slice(), place, bytes), cell)
        }
        _ => None,
    }
}
