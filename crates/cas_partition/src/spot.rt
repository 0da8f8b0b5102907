//! What a partition keeps apart of what is said of its rows.

ghost use Rattle.std.specs.Prelude.{◌≡◌, IfOk, None, Some};
ghost use Rattle.cas_cell.specs.Cells.{cell_cmp};
ghost use Rattle.cas_atoms.specs.Greatest.{greater};
ghost use Rattle.cas_partition.specs.Spots.{joined_content, blank};
ghost use Rattle.cas_partition.specs.Placed.{row_key, spot, given, wanted};
ghost use Rattle.cas_partition.specs.Inner.Runs.{room_row};

use cas_atoms::{Atom, ColumnRef, greater_deletion, greater_live};
use cas_bounds::{Clustering, Cut, MapKey};
use cas_cell::{Cell, Deletion, Liveness, wins};
use cas_types::{Bytes, TypeTag};
use std::alloc::AllocError;
use std::mem;

/// A row or the static row itself, a column of it as a whole, or a cell of that column.
#[derive(Drop)]
pub struct Spot {
    /// The row's place; the static row has none.
    pub row: Option<MapKey>,
    /// The column's number, if not the row itself is meant.
    pub column: Option<u16>,
    /// The cell's path, if not the whole of the column is meant.
    pub path: Option<Bytes>,
}

/// A place within a row: the row itself, a column of it as a whole, or a cell of that column.
#[derive(PartialEq, Eq, PartialOrd, Ord, Drop)]
pub struct Place {
    pub column: Option<u16>,
    pub path: Option<Bytes>,
}

/// The greatest of each that was said there, and the type that orders the column's paths.
#[derive(Drop)]
pub struct Content {
    pub tag: Option<TypeTag>,
    pub deletion: Option<Deletion>,
    pub live: Option<Liveness>,
    pub cell: Option<Cell>,
}

impl Content {
    /// Nothing is said there.
    pub(crate) fn blank(tag: Option<TypeTag>) -> Self
        ensures { result ≡ blank tag }
    {
        Content {
            tag,
            deletion: None,
            live: None,
            cell: None,
        }
    }

    fn deleted(tag: Option<TypeTag>, d: Deletion) -> Self
        ensures { result ≡ record { tag = tag; deletion = Some d; live = None; cell = None } }
    {
        Content {
            tag,
            deletion: Some(d),
            live: None,
            cell: None,
        }
    }

    fn lives(live: Liveness) -> Self
        ensures { result ≡ record { tag = None; deletion = None; live = Some live; cell = None } }
    {
        Content {
            tag: None,
            deletion: None,
            live: Some(live),
            cell: None,
        }
    }

    fn wrote(tag: Option<TypeTag>, cell: Cell) -> Self
        ensures { result ≡ record { tag = tag; deletion = None; live = None; cell = Some cell } }
    {
        Content {
            tag,
            deletion: None,
            live: None,
            cell: Some(cell),
        }
    }

    /// Takes in what else was said there.
    pub(crate) fn join(&mut self, other: Content)
        ensures { self.new ≡ joined_content self.old other }
    {
        self.deletion = greater_deletion(self.deletion, other.deletion);
        self.live = greater_live(self.live, other.live);
        let cell = mem::replace(&mut self.cell, None);
        self.cell = greater_cell(cell, other.cell);
    }
}

fn greater_cell(a: Option<Cell>, b: Option<Cell>) -> Option<Cell>
    ensures { result ≡ greater cell_cmp a b }
{
    match (a, b) {
        (None, b) => b,
        (Some(x), None) => Some(x),
        (Some(x), Some(y)) => { if wins(&y, &x) { Some(y) } else { Some(x) } }
    }
}

// The row itself.
fn of_row(row: Clustering) -> Spot
    ensures { result ≡ spot (Some (row_key row)) None None }
{
    Spot {
        row: Some(MapKey::of_row(row)),
        column: None,
        path: None,
    }
}

// A column of the row as a whole.
fn of_column(row: Clustering, column: ColumnRef) -> Spot
    ensures { result ≡ spot (Some (row_key row)) (Some column.number) None }
{
    Spot {
        row: Some(MapKey::of_row(row)),
        column: Some(column.number),
        path: None,
    }
}

// A cell of a column of the row.
fn of_cell(row: Clustering, column: ColumnRef, path: Bytes) -> Spot
    ensures { result ≡ spot (Some (row_key row)) (Some column.number) (Some path) }
{
    Spot {
        row: Some(MapKey::of_row(row)),
        column: Some(column.number),
        path: Some(path),
    }
}

// A column of the static row, or a cell of it.
fn of_static(column: ColumnRef, path: Option<Bytes>) -> Spot
    ensures { result ≡ spot None (Some column.number) path }
{
    Spot {
        row: None,
        column: Some(column.number),
        path,
    }
}

/// Where an atom is kept: in the deletion of the whole, at two cuts, or at a spot, in a column whose
/// paths have that type.
#[derive(Drop)]
pub enum Room {
    Whole,
    Cuts(Cut, Cut),
    At(Spot, Option<TypeTag>),
}

/// What an atom adds there.
#[derive(Drop)]
pub enum Addition {
    Whole(Deletion),
    Range(Cut, Cut, Deletion),
    At(Spot, Content),
}

/// What the atom adds, and where.
pub(crate) fn given(atom: Atom) -> Addition
    ensures { result ≡ given atom }
{
    match atom {
        Atom::PartitionDeletion(d) => Addition::Whole(d),
        Atom::RangeDeletion(lo, hi, d) => Addition::Range(lo, hi, d),
        Atom::RowDeletion(row, d) => Addition::At(of_row(row), Content::deleted(None, d)),
        Atom::CollectionDeletion(row, column, d) => {
            Addition::At(of_column(row, column), Content::deleted(column.path, d))
        }
        Atom::Live(row, live) => Addition::At(of_row(row), Content::lives(live)),
        Atom::Write(row, column, path, cell) => {
            Addition::At(
                of_cell(row, column, path),
                Content::wrote(column.path, cell),
            )
        }
        Atom::StaticWrite(column, path, cell) => {
            Addition::At(
                of_static(column, Some(path)),
                Content::wrote(column.path, cell),
            )
        }
        Atom::StaticCollectionDeletion(column, d) => {
            Addition::At(of_static(column, None), Content::deleted(column.path, d))
        }
    }
}

/// Where the atom is kept, copied.
pub(crate) fn wanted(atom: &Atom) -> Result<Room, AllocError>
    ensures { IfOk result (λ w. w ≡ wanted atom.now) }
{
    Ok(match atom {
        Atom::PartitionDeletion(_) => Room::Whole,
        Atom::RangeDeletion(lo, hi, _) => Room::Cuts(lo.copied()?, hi.copied()?),
        Atom::RowDeletion(row, _) => Room::At(of_row(row.copied()?), None),
        Atom::Live(row, _) => Room::At(of_row(row.copied()?), None),
        Atom::CollectionDeletion(row, column, _) => {
            Room::At(of_column(row.copied()?, *column), column.path)
        }
        Atom::Write(row, column, path, _) => {
            Room::At(of_cell(row.copied()?, *column, path.clone()?), column.path)
        }
        Atom::StaticWrite(column, path, _) => {
            Room::At(of_static(*column, Some(path.clone()?)), column.path)
        }
        Atom::StaticCollectionDeletion(column, _) => {
            Room::At(of_static(*column, None), column.path)
        }
    })
}

/// The row that the atom is of, or the static row, copied.
pub(crate) fn row_of(atom: &Atom) -> Result<Option<Option<MapKey>>, AllocError>
    ensures { IfOk result (λ r. r ≡ room_row (wanted atom.now)) }
{
    Ok(match atom {
        Atom::PartitionDeletion(_) | Atom::RangeDeletion(_, _, _) => None,
        Atom::RowDeletion(row, _) => Some(of_row(row.copied()?).row),
        Atom::CollectionDeletion(row, _, _) => Some(of_row(row.copied()?).row),
        Atom::Live(row, _) => Some(of_row(row.copied()?).row),
        Atom::Write(row, _, _, _) => Some(of_row(row.copied()?).row),
        Atom::StaticWrite(_, _, _) | Atom::StaticCollectionDeletion(_, _) => Some(None),
    })
}
