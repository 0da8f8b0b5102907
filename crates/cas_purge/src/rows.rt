//! What stays of a fragment.

ghost use Rattle.std.specs.Prelude.{◌≡◌, not, false, filter, Option, None};
ghost use Rattle.cas_bounds.specs.declared.cuts.Clustering.{Clustering};
ghost use Rattle.cas_streams.specs.declared.fragment.Fragment.TheVariants as fragment;
ghost use Rattle.cas_purge.specs.Purged.{unless, deletion_goes, live_goes, cell_goes, purged_column, purged_columns, purged_row, in_force_behind, left_of};
ghost use Rattle.cas_purge.specs.Inner.There.{is_there, column_there, row_there};

use crate::ends::{Horizon, cell_goes, deletion_goes, live_goes};
use cas_atoms::{PathCell, Row, RowColumn};
use cas_cell::{Deletion, Liveness};
use cas_streams::Fragment;
use cas_types::List;
use std::alloc::Global;
use std::mem;

/// The deletion, unless it may be dropped.
pub(crate) fn kept_deletion(horizon: Horizon, d: Option<Deletion>) -> Option<Deletion>
    ensures { result ≡ unless (deletion_goes horizon.before horizon.limit) d }
{
    match d {
        Some(d) if deletion_goes(horizon, &d) => None,
        d => d,
    }
}

fn kept_live(horizon: Horizon, live: Option<Liveness>) -> Option<Liveness>
    ensures { result ≡ unless (live_goes horizon.before horizon.limit) live }
{
    match live {
        Some(l) if live_goes(horizon, &l) => None,
        live => live,
    }
}

fn keep_cells(horizon: Horizon, cells: &mut Vec<PathCell>)
    ensures { cells.new.items ≡ filter (λ p. not (cell_goes horizon.before horizon.limit p.cell)) cells.old.items }
{
    cells.retain(|p| !cell_goes(horizon, &p.cell));
}

// Leaves what stays of the column, and tells whether that is something.
fn purge_column(alloc: Global, horizon: Horizon, c: &mut RowColumn) -> bool
    ensures purged { c.new ≡ purged_column horizon.before horizon.limit c.old }
    ensures left { result ≡ column_there (purged_column horizon.before horizon.limit c.old) }
{
    c.deletion = kept_deletion(horizon, c.deletion);
    let none = List::from_vec(Vec::new(alloc));
    let mut cells = mem::replace(&mut c.cells, none).into_vec();
    keep_cells(horizon, &mut cells);
    let some = !cells.is_empty();
    c.cells = List::from_vec(cells);
    c.deletion.is_some() || some
}

// Leaves the columns of which something stays.
fn purge_columns(horizon: Horizon, columns: &mut Vec<RowColumn>)
    ensures { (at : Option Clustering) → columns.new.items ≡ purged_columns horizon.before horizon.limit at columns.old.items }
{
    let alloc = *columns.allocator();
    columns.retain_mut(|c| purge_column(alloc, horizon, c));
}

fn is_there(columns: &[RowColumn]) -> bool
    ensures { result ≡ is_there columns.now }
{
    match columns {
        [] => false,
        [_, ..] => true,
    }
}

// Whether something is said of the row, of whose columns something is.
fn is_said(r: &Row) -> bool
    ensures { result ≡ row_there r.now }
{
    r.deletion.is_some() || r.live.is_some() || is_there(r.columns.as_slice())
}

fn purge_static(horizon: Horizon, columns: List<RowColumn>) -> List<RowColumn>
    ensures { result ≡ purged_columns horizon.before horizon.limit None columns }
{
    let mut columns = columns.into_vec();
    purge_columns(horizon, &mut columns);
    List::from_vec(columns)
}

fn purge_row(horizon: Horizon, r: Row) -> Row
    ensures { result ≡ purged_row horizon.before horizon.limit r }
{
    let mut columns = r.columns.into_vec();
    purge_columns(horizon, &mut columns);
    Row {
        clustering: r.clustering,
        deletion: kept_deletion(horizon, r.deletion),
        live: kept_live(horizon, r.live),
        columns: List::from_vec(columns),
    }
}

// What stays of the static row, if anything does.
fn left_static(horizon: Horizon, columns: List<RowColumn>) -> Option<Fragment>
    ensures { result ≡ left_of horizon.before horizon.limit false (fragment.Static columns) }
{
    let left = purge_static(horizon, columns);
    if is_there(left.as_slice()) {
        Some(Fragment::Static(left))
    } else {
        None
    }
}

// What stays of a row, if anything does.
fn left_row(horizon: Horizon, r: Row) -> Option<Fragment>
    ensures { result ≡ left_of horizon.before horizon.limit false (fragment.Row r) }
{
    let left = purge_row(horizon, r);
    if is_said(&left) {
        Some(Fragment::Row(left))
    } else {
        None
    }
}

/// What stays of a fragment, and whether a range deletion that stays is in force behind it, by
/// whether one is before it.
pub(crate) fn left_of(horizon: Horizon, now: bool, f: Fragment) -> (Option<Fragment>, bool)
    ensures left { result.0 ≡ left_of horizon.before horizon.limit now f }
    ensures force { result.1 ≡ in_force_behind horizon.before horizon.limit now f }
{
    match f {
        Fragment::Static(columns) => (left_static(horizon, columns), now),
        Fragment::Row(r) => (left_row(horizon, r), now),
        Fragment::Marker(cut, d) => {
            let kept = kept_deletion(horizon, d);
            if now || kept.is_some() {
                (Some(Fragment::Marker(cut, kept)), kept.is_some())
            } else {
                (None, false)
            }
        }
    }
}
