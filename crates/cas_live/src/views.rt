//! The atoms by which a row shows.

ghost use Rattle.std.specs.Prelude.{◌≡◌, ◌++◌, map, IfOk, OnOk};
ghost use Rattle.std.specs.List.{flat_map};
ghost use Rattle.std.specs.Option.{option_copied};
ghost use Rattle.cas_atoms.specs.declared.atom.Atom.TheVariants.{RowDeletion};
ghost use Rattle.cas_streams.specs.Flat.{atom_of, writes, empties, of_column, own};
ghost use Rattle.cas_streams.specs.declared.fragment.Fragment.TheVariants as fragment;

use cas_atoms::{Atom, ColumnRef, PathCell, Row, RowColumn};
use cas_bounds::Clustering;
use cas_cell::Deletion;
use std::alloc::AllocError;

// A cell as an atom of the row, or with none of the static row.
fn written(at: Option<&Clustering>, column: ColumnRef, cell: &PathCell) -> Result<Atom, AllocError>
    ensures { IfOk result (λ a. a ≡ writes (option_copied at.entry) column cell.now) }
{
    let path = cell.path.clone()?;
    let value = cell.cell.copied()?;
    Ok(match at {
        None => Atom::StaticWrite(column, path, value),
        Some(c) => Atom::Write(c.copied()?, column, path, value),
    })
}

// A collection's deletion as an atom.
fn emptied(at: Option<&Clustering>, column: ColumnRef, d: Deletion) -> Result<Atom, AllocError>
    ensures { IfOk result (λ a. a ≡ empties (option_copied at.entry) column d) }
{
    Ok(match at {
        None => Atom::StaticCollectionDeletion(column, d),
        Some(c) => Atom::CollectionDeletion(c.copied()?, column, d),
    })
}

fn add_cells(
    atoms: &mut Vec<Atom>,
    at: Option<&Clustering>,
    column: ColumnRef,
    cells: &[PathCell],
) -> Result<(), AllocError>
    ensures { OnOk result (atoms.new.items ≡ atoms.old.items ++ map (writes (option_copied at.entry) column) cells.now) }
{
    let mut rest = cells;
    while let [cell, others @ ..] = rest {
        atoms.push(written(at, column, cell)?)?;
        rest = others;
    }
    Ok(())
}

fn add_column(
    atoms: &mut Vec<Atom>,
    at: Option<&Clustering>,
    c: &RowColumn,
) -> Result<(), AllocError>
    ensures { OnOk result (atoms.new.items ≡ atoms.old.items ++ of_column (option_copied at.entry) c.now) }
{
    if let Some(d) = c.deletion {
        atoms.push(emptied(at, c.column, d)?)?;
    }
    add_cells(atoms, at, c.column, c.cells.as_slice())
}

/// Adds what is said of the columns of the row, or with none of the static row.
pub(crate) fn add_columns(
    atoms: &mut Vec<Atom>,
    at: Option<&Clustering>,
    columns: &[RowColumn],
) -> Result<(), AllocError>
    ensures { OnOk result (atoms.new.items ≡ atoms.old.items ++ flat_map (of_column (option_copied at.entry)) columns.now) }
{
    let mut rest = columns;
    while let [c, others @ ..] = rest {
        add_column(atoms, at, c)?;
        rest = others;
    }
    Ok(())
}

fn add_deletion(
    atoms: &mut Vec<Atom>,
    at: &Clustering,
    d: Option<Deletion>,
) -> Result<(), AllocError>
    ensures { OnOk result (atoms.new.items ≡ atoms.old.items ++ atom_of (RowDeletion at.now) d) }
{
    if let Some(d) = d {
        atoms.push(Atom::RowDeletion(at.copied()?, d))?;
    }
    Ok(())
}

/// Adds the range deletion in force at the row, as one of this row, and what is said of the row.
pub(crate) fn add_row(
    atoms: &mut Vec<Atom>,
    force: Option<Deletion>,
    row: &Row,
) -> Result<(), AllocError>
    ensures { OnOk result (atoms.new.items ≡ atoms.old.items ++ (atom_of (RowDeletion row.now.clustering) force ++ own (fragment.Row row.now))) }
{
    add_deletion(atoms, &row.clustering, force)?;
    add_deletion(atoms, &row.clustering, row.deletion)?;
    if let Some(l) = row.live {
        atoms.push(Atom::Live(row.clustering.copied()?, l))?;
    }
    add_columns(atoms, Some(&row.clustering), row.columns.as_slice())
}
