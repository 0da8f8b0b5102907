//! Atoms one after another that are of one row.

ghost use Rattle.std.specs.Prelude.{◌≡◌, ◌≤◌, true, None, Some, IfOk, IfSome, length, take};
ghost use Rattle.std.specs.List.{AllByRecursion};
ghost use Rattle.std.specs.Vec.Iter.{into_iter_items};
ghost use Rattle.cas_partition.specs.Placed.{wanted, row_key};
ghost use Rattle.cas_partition.specs.Inner.Firsts.{with_first};
ghost use Rattle.cas_partition.specs.Inner.Runs.{room_place, room_tag, IsInRow};

use crate::spot::{Place, row_of};
use cas_atoms::{Atom, ColumnRef};
use cas_bounds::{Clustering, End, MapKey, Ordered};
use cas_types::{Bytes, TypeTag};
use std::alloc::AllocError;
use std::vec::IntoIter;

/// The next atom, and the others stay.
pub(crate) fn first_of(rest: &mut IntoIter<Atom>) -> Option<Atom>
    ensures { with_first result (into_iter_items rest.new) ≡ into_iter_items rest.old }
{
    rest.next()
}

// Whether both order their values alike.
fn have_one_order(a: &[Ordered], b: &[Ordered]) -> bool
    ensures { result ≡ true → a.now ≡ b.now }
{
    match (a, b) {
        ([], []) => true,
        ([x, xs @ ..], [y, ys @ ..]) => {
            x.tag == y.tag && x.descending == y.descending && have_one_order(xs, ys)
        }
        _ => false,
    }
}

// Whether the row stands there.
fn stands_at(row: &Option<MapKey>, clustering: &Clustering) -> bool
    ensures { result ≡ true → row.now ≡ Some (row_key clustering.now) }
{
    match row {
        None => false,
        Some(key) => match key.end {
            End::Row => {
                key.values.as_slice() == clustering.values.as_slice()
                    && have_one_order(key.order.as_slice(), clustering.order.as_slice())
            }
            _ => false,
        },
    }
}

/// Whether the atom is of the row, or of the static row.
pub(crate) fn is_in_row(atom: &Atom, row: &Option<MapKey>) -> bool
    ensures { result ≡ true → IsInRow row.now atom.now }
{
    match atom {
        Atom::PartitionDeletion(_) | Atom::RangeDeletion(_, _, _) => false,
        Atom::RowDeletion(at, _) => stands_at(row, at),
        Atom::CollectionDeletion(at, _, _) => stands_at(row, at),
        Atom::Live(at, _) => stands_at(row, at),
        Atom::Write(at, _, _, _) => stands_at(row, at),
        Atom::StaticWrite(_, _, _) | Atom::StaticCollectionDeletion(_, _) => row.is_none(),
    }
}

/// How many of these come first that are of the row.
pub(crate) fn count_in(row: &Option<MapKey>, atoms: &[Atom]) -> usize
    ensures most { result ≤ length atoms.now }
    ensures run { AllByRecursion (IsInRow row.now) (take result atoms.now) }
{
    let mut count = 0;
    let mut rest = atoms;
    while let [atom, later @ ..] = rest {
        if !is_in_row(atom, row) {
            return count;
        }
        count += 1;
        rest = later;
    }
    count
}

/// The row that all of these are of, copied, if they are of one.
pub(crate) fn row_of_all(atoms: &[Atom]) -> Result<Option<Option<MapKey>>, AllocError>
    ensures { IfOk result (λ o. IfSome o (λ row. AllByRecursion (IsInRow row) atoms.now)) }
{
    if let [atom, others @ ..] = atoms {
        if let Some(row) = row_of(atom)? {
            if count_in(&row, others) == others.len() {
                return Ok(Some(row));
            }
        }
    }
    Ok(None)
}

// A column as a whole.
fn whole(column: ColumnRef) -> Place
    ensures { result ≡ record { column = Some column.number; path = None } }
{
    Place {
        column: Some(column.number),
        path: None,
    }
}

// A cell of a column.
fn cell(column: ColumnRef, path: Bytes) -> Place
    ensures { result ≡ record { column = Some column.number; path = Some path } }
{
    Place {
        column: Some(column.number),
        path: Some(path),
    }
}

/// The place of the atom within its row, copied.
pub(crate) fn place_of(atom: &Atom) -> Result<Place, AllocError>
    ensures { IfOk result (λ p. p ≡ room_place (wanted atom.now)) }
{
    Ok(match atom {
        Atom::PartitionDeletion(_)
        | Atom::RangeDeletion(_, _, _)
        | Atom::RowDeletion(_, _)
        | Atom::Live(_, _) => Place {
            column: None,
            path: None,
        },
        Atom::CollectionDeletion(_, column, _) => whole(*column),
        Atom::Write(_, column, path, _) => cell(*column, path.clone()?),
        Atom::StaticWrite(column, path, _) => cell(*column, path.clone()?),
        Atom::StaticCollectionDeletion(column, _) => whole(*column),
    })
}

/// The type that orders the paths of its column.
pub(crate) fn tag_of(atom: &Atom) -> Option<TypeTag>
    ensures { result ≡ room_tag (wanted atom.now) }
{
    match atom {
        Atom::PartitionDeletion(_)
        | Atom::RangeDeletion(_, _, _)
        | Atom::RowDeletion(_, _)
        | Atom::Live(_, _) => None,
        Atom::CollectionDeletion(_, column, _) => column.path,
        Atom::Write(_, column, _, _) => column.path,
        Atom::StaticWrite(column, _, _) => column.path,
        Atom::StaticCollectionDeletion(column, _) => column.path,
    }
}
