//! The fragments that two sources have at one place, as one.

ghost use Rattle.std.specs.Prelude.{◌≡◌, IfOk, if◌then◌else◌};
ghost use Rattle.std.specs.Ordering.{nat_cmp, is_lt};
ghost use Rattle.cas_cell.specs.Cells.{cell_cmp};
ghost use Rattle.cas_atoms.specs.RowsAndPaths.{path_cmp};
ghost use Rattle.cas_streams.specs.Joined.{joined_cell, joined_cells, joined_column, joined_columns, joined_row, joined_fragment, raised, opened};
ghost use Rattle.std.specs.Vec.Iter.{into_iter_items};
ghost use Rattle.cas_merge.specs.Inner.Begun.{begun};
ghost use Rattle.cas_merge.specs.Inner.Said.{opened_by};

use cas_atoms::{PathCell, Row, RowColumn, compare_paths, greater_deletion, greater_live};
use cas_cell::{Cell, Deletion, wins};
use cas_streams::Fragment;
use cas_types::{List, TypeTag};
use std::alloc::{AllocError, Global};
use std::cmp::Ordering;
use std::mem::drop;
use std::vec::IntoIter;

// The next element, and the others stay.
pub(crate) fn first_of<X>(rest: &mut IntoIter<X>) -> Option<X>
    ensures { begun result (into_iter_items rest.new) ≡ into_iter_items rest.old }
{
    rest.next()
}

fn compare_cells(tag: Option<TypeTag>, p: &PathCell, q: &PathCell) -> Ordering
    ensures { result ≡ path_cmp tag p.now.path q.now.path }
{
    compare_paths(tag, p.path.as_slice(), q.path.as_slice())
}

fn greater_cell(a: Cell, b: Cell) -> Cell
    ensures { result ≡ (if is_lt (cell_cmp a b) then b else a) }
{
    if wins(&b, &a) { b } else { a }
}

fn joined_cell(p: PathCell, q: PathCell) -> PathCell
    ensures { result ≡ joined_cell p q }
{
    PathCell {
        path: p.path,
        cell: greater_cell(p.cell, q.cell),
    }
}

fn joined_cells(
    alloc: Global,
    tag: Option<TypeTag>,
    left: List<PathCell>,
    right: List<PathCell>,
) -> Result<Vec<PathCell>, AllocError>
    ensures { IfOk result (λ v. v.items ≡ joined_cells tag left right) }
{
    let mut out = Vec::new(alloc);
    let mut left = left.into_vec().into_iter();
    let mut right = right.into_vec().into_iter();
    let mut first = first_of(&mut left);
    let mut second = first_of(&mut right);
    loop {
        match (first, second) {
            (None, None) => return Ok(out),
            (Some(p), None) => {
                out.push(p)?;
                first = first_of(&mut left);
                second = None;
            }
            (None, Some(q)) => {
                out.push(q)?;
                first = None;
                second = first_of(&mut right);
            }
            (Some(p), Some(q)) => match compare_cells(tag, &p, &q) {
                Ordering::Less => {
                    out.push(p)?;
                    first = first_of(&mut left);
                    second = Some(q);
                }
                Ordering::Equal => {
                    out.push(joined_cell(p, q))?;
                    first = first_of(&mut left);
                    second = first_of(&mut right);
                }
                Ordering::Greater => {
                    out.push(q)?;
                    first = Some(p);
                    second = first_of(&mut right);
                }
            },
        }
    }
}

fn joined_column(alloc: Global, c: RowColumn, d: RowColumn) -> Result<RowColumn, AllocError>
    ensures { IfOk result (λ r. r ≡ joined_column c d) }
{
    let cells = joined_cells(alloc, c.column.path, c.cells, d.cells)?;
    Ok(RowColumn {
        column: c.column,
        deletion: greater_deletion(c.deletion, d.deletion),
        cells: List::from_vec(cells),
    })
}

fn joined_columns(
    alloc: Global,
    left: List<RowColumn>,
    right: List<RowColumn>,
) -> Result<Vec<RowColumn>, AllocError>
    ensures { IfOk result (λ v. v.items ≡ joined_columns left right) }
{
    let mut out = Vec::new(alloc);
    let mut left = left.into_vec().into_iter();
    let mut right = right.into_vec().into_iter();
    let mut first = first_of(&mut left);
    let mut second = first_of(&mut right);
    loop {
        match (first, second) {
            (None, None) => return Ok(out),
            (Some(c), None) => {
                out.push(c)?;
                first = first_of(&mut left);
                second = None;
            }
            (None, Some(d)) => {
                out.push(d)?;
                first = None;
                second = first_of(&mut right);
            }
            (Some(c), Some(d)) => match c.column.number.cmp(&d.column.number) {
                Ordering::Less => {
                    out.push(c)?;
                    first = first_of(&mut left);
                    second = Some(d);
                }
                Ordering::Equal => {
                    out.push(joined_column(alloc, c, d)?)?;
                    first = first_of(&mut left);
                    second = first_of(&mut right);
                }
                Ordering::Greater => {
                    out.push(d)?;
                    first = Some(c);
                    second = first_of(&mut right);
                }
            },
        }
    }
}

fn joined_row(alloc: Global, r: Row, s: Row) -> Result<Row, AllocError>
    ensures { IfOk result (λ t. t ≡ joined_row r s) }
{
    let columns = joined_columns(alloc, r.columns, s.columns)?;
    Ok(Row {
        clustering: r.clustering,
        deletion: greater_deletion(r.deletion, s.deletion),
        live: greater_live(r.live, s.live),
        columns: List::from_vec(columns),
    })
}

/// The fragments of two sources at one place.
pub fn joined_fragment(alloc: Global, f: Fragment, g: Fragment) -> Result<Fragment, AllocError>
    ensures { IfOk result (λ h. h ≡ joined_fragment f g) }
{
    match (f, g) {
        (Fragment::Static(cs), Fragment::Static(ds)) => {
            Ok(Fragment::Static(List::from_vec(joined_columns(alloc, cs, ds)?)))
        }
        (Fragment::Row(r), Fragment::Row(s)) => Ok(Fragment::Row(joined_row(alloc, r, s)?)),
        (Fragment::Marker(cut, d), Fragment::Marker(other, e)) => {
            drop(other);
            Ok(Fragment::Marker(cut, greater_deletion(d, e)))
        }
        (f, other) => {
            drop(other);
            Ok(f)
        }
    }
}

/// A fragment that one source alone has at its place, where in the other that is in force.
pub fn raised(other: Option<Deletion>, f: Fragment) -> Fragment
    ensures { result ≡ raised other f }
{
    match f {
        Fragment::Marker(cut, d) => Fragment::Marker(cut, greater_deletion(d, other)),
        f => f,
    }
}

/// What is in force after the fragment.
pub fn opened(now: Option<Deletion>, f: &Fragment) -> Option<Deletion>
    ensures { result ≡ opened now f.now }
{
    match f {
        Fragment::Marker(_, d) => *d,
        _ => now,
    }
}

/// What is in force after what came next.
#[inline]
pub(crate) fn opened_by<E>(
    now: Option<Deletion>,
    next: &Result<Option<Fragment>, E>,
) -> Option<Deletion>
    ensures { result ≡ opened_by now next.now }
{
    match next {
        Ok(Some(f)) => opened(now, f),
        Ok(None) => now,
        Err(_) => now,
    }
}
