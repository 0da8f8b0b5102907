//! Rows whose columns and paths stand in order, each once, beside what all rows share.

ghost use Rattle.std.specs.Prelude.{◌≡◌, slice_get};
ghost use Rattle.std.specs.Option.{option_copied};
ghost use Rattle.cas_live.specs.Inner.InOrder.{is_of_all, are_of_all, is_before, ascend, ascend_in, is_below, are_in_order};

use cas_atoms::{Atom, PathCell, RowColumn, compare_paths};
use cas_types::{Column, TypeTag};
use std::cmp::Ordering;

// Whether the atom is of the whole partition or of the static row.
fn is_of_all(atom: &Atom) -> bool
    ensures { result ≡ is_of_all atom.now }
{
    match atom {
        Atom::PartitionDeletion(_) => true,
        Atom::StaticWrite(_, _, _) => true,
        Atom::StaticCollectionDeletion(_, _) => true,
        _ => false,
    }
}

/// Whether the atoms are of the whole partition and of the static row.
pub(crate) fn are_of_all(atoms: &[Atom]) -> bool
    ensures { result ≡ are_of_all atoms.now }
{
    let mut rest = atoms;
    while let [atom, others @ ..] = rest {
        if !is_of_all(atom) {
            return false;
        }
        rest = others;
    }
    true
}

// Whether the path stands before that of the first of the cells.
fn is_before(tag: Option<TypeTag>, path: &[u8], cells: &[PathCell]) -> bool
    ensures { result ≡ is_before tag path.now cells.now }
{
    match cells {
        [] => true,
        [next, _others @ ..] => compare_paths(tag, path, next.path.as_slice()) == Ordering::Less,
    }
}

// Whether the paths ascend.
fn ascend(tag: Option<TypeTag>, cells: &[PathCell]) -> bool
    ensures { result ≡ ascend tag cells.now }
{
    let mut rest = cells;
    while let [cell, others @ ..] = rest {
        if !is_before(tag, cell.path.as_slice(), others) {
            return false;
        }
        rest = others;
    }
    true
}

// Whether the paths ascend as the column has it.
fn ascend_in(column: Option<&Column>, cells: &[PathCell]) -> bool
    ensures { result ≡ ascend_in (option_copied column.entry) cells.now }
{
    match column {
        Some(column) => ascend(column.path_type(), cells),
        None => false,
    }
}

/// The column of that number.
pub(crate) fn column_at(columns: &[Column], number: u16) -> Option<&Column>
    ensures { option_copied result ≡ slice_get columns.now number }
{
    columns.get(number as usize)
}

// Whether the number is below that of the first of the columns.
fn is_below(number: u16, mine: &[RowColumn]) -> bool
    ensures { result ≡ is_below number mine.now }
{
    match mine {
        [] => true,
        [next, _others @ ..] => number < next.column.number,
    }
}

/// Whether these are columns of the table by ascending number, of which the paths ascend.
pub(crate) fn are_in_order(columns: &[Column], mine: &[RowColumn]) -> bool
    ensures { result ≡ are_in_order columns.now mine.now }
{
    let mut rest = mine;
    while let [c, others @ ..] = rest {
        let number = c.column.number;
        if !(is_below(number, others)
            && ascend_in(column_at(columns, number), c.cells.as_slice()))
        {
            return false;
        }
        rest = others;
    }
    true
}
