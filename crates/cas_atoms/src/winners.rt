//! What covers a coordinate and what wins there. Of a list of atoms the greatest decide.

ghost use Rattle.std.specs.Prelude.{◌≡◌};
ghost use Rattle.std.specs.Option.{option_copied};
ghost use Rattle.cas_cell.specs.Deletions.{deletion_cmp};
ghost use Rattle.cas_cell.specs.Lives.{live_at, live_cmp};
ghost use Rattle.cas_cell.specs.Cells.{cell_at, cell_cmp};
ghost use Rattle.cas_atoms.specs.Greatest.{greater};
ghost use Rattle.cas_atoms.specs.Coordinates.{row, path};
ghost use Rattle.cas_atoms.specs.Inner.Places.{row_at};
ghost use Rattle.cas_atoms.specs.Winners.{cover, standing, live_winner, cell_winner};

use crate::atom::Atom;
use crate::coordinates::{cell_at_path, deletion_at_path, deletion_at_row, live_at_row};
use crate::place::Place;
use cas_bounds::Values;
use cas_cell::{Cell, Deletion, Liveness, covers, del_wins, live_wins, wins};

/// The greater of two deletions, where there are two.
pub fn greater_deletion(a: Option<Deletion>, b: Option<Deletion>) -> Option<Deletion>
    ensures { result ≡ greater deletion_cmp a b }
{
    match (a, b) {
        (None, b) => b,
        (Some(x), None) => Some(x),
        (Some(x), Some(y)) => { if del_wins(&y, &x) { Some(y) } else { Some(x) } }
    }
}

/// The greater of what two `INSERT`s leave of a row, where there are two.
pub fn greater_live(a: Option<Liveness>, b: Option<Liveness>) -> Option<Liveness>
    ensures { result ≡ greater live_cmp a b }
{
    match (a, b) {
        (None, b) => b,
        (Some(x), None) => Some(x),
        (Some(x), Some(y)) => { if live_wins(&y, &x) { Some(y) } else { Some(x) } }
    }
}

fn greater_cell<'a>(a: Option<&'a Cell>, b: Option<&'a Cell>) -> Option<&'a Cell>
    ensures { option_copied result ≡ greater cell_cmp (option_copied a.entry) (option_copied b.entry) }
{
    match (a, b) {
        (None, b) => b,
        (Some(x), None) => Some(x),
        (Some(x), Some(y)) => { if wins(y, x) { Some(y) } else { Some(x) } }
    }
}

/// What an `INSERT` leaves of a row, where the deletion doesn't cover it.
pub fn standing_live(over: Option<Deletion>, live: Option<Liveness>) -> Option<Liveness>
    ensures { result ≡ standing live_at over live }
{
    match (over, live) {
        (Some(d), Some(l)) if covers(&d, l.at()) => None,
        (_, live) => live,
    }
}

fn standing_cell(over: Option<Deletion>, cell: Option<&Cell>) -> Option<&Cell>
    ensures { option_copied result ≡ standing cell_at over (option_copied cell.entry) }
{
    match (over, cell) {
        (Some(d), Some(c)) if covers(&d, c.at()) => None,
        (_, cell) => cell,
    }
}

// The greatest deletion that has the row's own place in its scope.
fn row_cover(atoms: &[Atom], values: &Values) -> Option<Deletion>
    ensures { result ≡ cover atoms.now (row values.now) }
{
    let mut best = None;
    for atom in atoms {
        best = greater_deletion(best, deletion_at_row(values, atom));
    }
    best
}

// The greatest deletion that has that path of that column of the row in its scope.
fn path_cover(atoms: &[Atom], place: Place<'_>, bytes: &[u8]) -> Option<Deletion>
    ensures { result ≡ cover atoms.now (path (row_at place.entry) place.entry.number bytes.now) }
{
    let mut best = None;
    for atom in atoms {
        best = greater_deletion(best, deletion_at_path(place, bytes, atom));
    }
    best
}

/// What tells that a row lives: the greatest liveness at it that isn't covered.
pub(crate) fn live_winner(atoms: &[Atom], values: &Values) -> Option<Liveness>
    ensures { result ≡ live_winner atoms.now values.now }
{
    let over = row_cover(atoms, values);
    let mut best = None;
    for atom in atoms {
        best = greater_live(best, standing_live(over, live_at_row(values, atom)));
    }
    best
}

/// The cell that counts at that path of that column of the row: the greatest there that isn't
/// covered.
pub(crate) fn cell_winner<'a>(atoms: &'a [Atom], place: Place<'_>, bytes: &[u8]) -> Option<&'a Cell>
    ensures { option_copied result ≡ cell_winner atoms.now (path (row_at place.entry) place.entry.number bytes.now) }
{
    let over = path_cover(atoms, place, bytes);
    let mut best = None;
    for atom in atoms {
        best = greater_cell(best, standing_cell(over, cell_at_path(place, bytes, atom)));
    }
    best
}
