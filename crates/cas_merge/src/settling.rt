//! What is left of a fragment under what covers it.

ghost use Rattle.std.specs.Prelude.{◌≡◌, filter, IfOk, Option, None};
ghost use Rattle.cas_bounds.specs.declared.cuts.Clustering.{Clustering};
ghost use Rattle.cas_cell.specs.Cells.{cell_at};
ghost use Rattle.cas_streams.specs.Flat.{own};
ghost use Rattle.cas_streams.specs.Settled.{is_bare, if_said, bare_column, bare_columns, bare_row, bare, same_force, left_of};
ghost use Rattle.cas_streams.specs.declared.fragment.Fragment.TheVariants as fragment;
ghost use Rattle.cas_merge.specs.Inner.Said.{says, any_says, all_bare, stays, all_stay, live_stays, row_says, row_stays, is_left_whole, goes_whole};

use cas_atoms::{PathCell, Row, RowColumn, greater_deletion, standing_live};
use cas_cell::{Cell, Deletion, Liveness, covers};
use cas_streams::Fragment;
use cas_types::List;
use std::alloc::{AllocError, Global};

fn is_bare(over: Option<Deletion>, cell: &Cell) -> bool
    ensures { result ≡ is_bare over (cell_at cell.now) }
{
    match over {
        None => true,
        Some(d) => !covers(&d, cell.at()),
    }
}

fn keep_bare(over: Option<Deletion>, cells: &mut Vec<PathCell>)
    ensures { cells.new.items ≡ filter (λ p. is_bare over (cell_at p.cell)) cells.old.items }
{
    cells.retain(|p| is_bare(over, &p.cell));
}

fn bare_column(over: Option<Deletion>, c: RowColumn) -> RowColumn
    ensures { result ≡ bare_column over c }
{
    let mut cells = c.cells.into_vec();
    keep_bare(greater_deletion(over, c.deletion), &mut cells);
    RowColumn {
        column: c.column,
        deletion: c.deletion,
        cells: List::from_vec(cells),
    }
}

fn says(c: &RowColumn) -> bool
    ensures { result ≡ says c.now.deletion c.now.cells }
{
    c.deletion.is_some() || !c.cells.as_slice().is_empty()
}

fn any_says(columns: &[RowColumn]) -> bool
    ensures { result ≡ any_says columns.now }
{
    match columns {
        [] => false,
        [c, rest @ ..] => says(c) || any_says(rest),
    }
}

// What is left of the columns of a row.
fn bare_columns(
    alloc: Global,
    over: Option<Deletion>,
    columns: List<RowColumn>,
) -> Result<Vec<RowColumn>, AllocError>
    ensures { IfOk result (λ v. (at : Option Clustering) → v.items ≡ bare_columns at over columns) }
{
    let mut kept = Vec::new(alloc);
    let mut rest = columns.into_vec().into_iter();
    while let Some(c) = rest.next() {
        let left = bare_column(over, c);
        if says(&left) {
            kept.push(left)?;
        }
    }
    Ok(kept)
}

// Whether none of the cells is covered.
fn all_bare(over: Option<Deletion>, cells: &[PathCell]) -> bool
    ensures { result ≡ all_bare over cells.now }
{
    match cells {
        [] => true,
        [p, rest @ ..] => is_bare(over, &p.cell) && all_bare(over, rest),
    }
}

// Whether the column has cells, none of which is covered, and no deletion of its own.
fn stays(over: Option<Deletion>, c: &RowColumn) -> bool
    ensures { result ≡ stays over c.now.deletion c.now.cells }
{
    c.deletion.is_none() && !c.cells.as_slice().is_empty() && all_bare(over, c.cells.as_slice())
}

// Whether each of the columns does.
fn all_stay(over: Option<Deletion>, columns: &[RowColumn]) -> bool
    ensures { result ≡ all_stay over columns.now }
{
    match columns {
        [] => true,
        [c, rest @ ..] => stays(over, c) && all_stay(over, rest),
    }
}

// What is left of the columns, which are given on as they are where nothing covers them.
fn left_columns(
    alloc: Global,
    over: Option<Deletion>,
    columns: List<RowColumn>,
) -> Result<Vec<RowColumn>, AllocError>
    ensures { IfOk result (λ v. (at : Option Clustering) → v.items ≡ bare_columns at over columns) }
{
    if all_stay(over, columns.as_slice()) {
        return Ok(columns.into_vec());
    }
    bare_columns(alloc, over, columns)
}

fn bare_row(alloc: Global, over: Option<Deletion>, r: Row) -> Result<Row, AllocError>
    ensures { IfOk result (λ s. s ≡ bare_row over r) }
{
    let all = greater_deletion(over, r.deletion);
    let columns = left_columns(alloc, all, r.columns)?;
    Ok(Row {
        clustering: r.clustering,
        deletion: r.deletion,
        live: standing_live(all, r.live),
        columns: List::from_vec(columns),
    })
}

fn same_force(a: Option<Deletion>, b: Option<Deletion>) -> bool
    ensures { result ≡ same_force a b }
{
    match (a, b) {
        (None, None) => true,
        (Some(x), Some(y)) => x.at.cmp(&y.at).then(x.second.cmp(&y.second)).is_eq(),
        _ => false,
    }
}

fn row_says(r: &Row) -> bool
    ensures { result ≡ row_says r.now }
{
    r.deletion.is_some() || r.live.is_some() || any_says(r.columns.as_slice())
}

// The static row, if something is said of it.
#[tactic(auto, using(crate::proofs::Saying::static_left))]
fn static_left(columns: List<RowColumn>) -> Option<Fragment>
    ensures { result ≡ if_said (own (fragment.Static columns)) (fragment.Static columns) }
{
    if any_says(columns.as_slice()) {
        Some(Fragment::Static(columns))
    } else {
        None
    }
}

// The row, if something is said of it.
#[tactic(auto, using(crate::proofs::Saying::row_left))]
fn row_left(r: Row) -> Option<Fragment>
    ensures { result ≡ if_said (own (fragment.Row r)) (fragment.Row r) }
{
    if row_says(&r) {
        Some(Fragment::Row(r))
    } else {
        None
    }
}

// What is left of the static row.
fn bare_static(
    alloc: Global,
    top: Option<Deletion>,
    columns: List<RowColumn>,
) -> Result<List<RowColumn>, AllocError>
    ensures { IfOk result (λ cs. cs ≡ bare_columns None top columns) }
{
    Ok(List::from_vec(left_columns(alloc, top, columns)?))
}

// Whether there is no liveness that is covered.
fn live_stays(over: Option<Deletion>, live: Option<Liveness>) -> bool
    ensures { result ≡ live_stays over live }
{
    match (over, live) {
        (Some(d), Some(l)) => !covers(&d, l.at()),
        _ => true,
    }
}

// Whether what is said of the row all stays under a deletion.
fn row_stays(over: Option<Deletion>, r: &Row) -> bool
    ensures { result ≡ row_stays over r.now }
{
    let all = greater_deletion(over, r.deletion);
    live_stays(all, r.live) && all_stay(all, r.columns.as_slice()) && row_says(r)
}

// Whether the fragment is a row that stays as it is, or a marker that changes what is in force.
fn is_left_whole(top: Option<Deletion>, now: Option<Deletion>, f: &Fragment) -> bool
    ensures { result ≡ is_left_whole top now f.now }
{
    match f {
        Fragment::Static(_) => false,
        Fragment::Row(r) => row_stays(greater_deletion(top, now), r),
        Fragment::Marker(_, d) => !same_force(now, *d),
    }
}

/// Whether what came next goes on as it is.
#[inline]
pub(crate) fn goes_whole<E>(
    top: Option<Deletion>,
    now: Option<Deletion>,
    next: &Result<Option<Fragment>, E>,
) -> bool
    ensures { result ≡ goes_whole top now next.now }
{
    match next {
        Ok(Some(f)) => is_left_whole(top, now, f),
        Ok(None) => true,
        Err(_) => true,
    }
}

// What is left of any fragment. It stands apart, so that one that goes on as it is doesn't pay for
// what this holds.
#[inline(never)]
fn left_of_any(
    alloc: Global,
    top: Option<Deletion>,
    now: Option<Deletion>,
    f: Fragment,
) -> Result<Option<Fragment>, AllocError>
    ensures { IfOk result (λ g. g ≡ left_of top now f) }
{
    match f {
        Fragment::Static(columns) => Ok(static_left(bare_static(alloc, top, columns)?)),
        Fragment::Row(r) => Ok(row_left(bare_row(alloc, greater_deletion(top, now), r)?)),
        Fragment::Marker(cut, d) => {
            if same_force(now, d) {
                Ok(None)
            } else {
                Ok(Some(Fragment::Marker(cut, d)))
            }
        }
    }
}

/// What is left of a fragment under the top, where that is in force before it.
#[inline]
pub fn left_of(
    alloc: Global,
    top: Option<Deletion>,
    now: Option<Deletion>,
    f: Fragment,
) -> Result<Option<Fragment>, AllocError>
    ensures { IfOk result (λ g. g ≡ left_of top now f) }
{
    if is_left_whole(top, now, &f) {
        return Ok(Some(f));
    }
    left_of_any(alloc, top, now, f)
}
