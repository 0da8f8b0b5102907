//! Rows and marks on their way into one stream, without rows of which nothing would be left.

ghost use Rattle.std.specs.Prelude.{◌≡◌, Some, Option, IfOk, map};
ghost use Rattle.std.specs.Vec.Iter.{into_iter_items};
ghost use Rattle.cas_cell.specs.declared.deletion.Deletion.{Deletion};
ghost use Rattle.cas_streams.specs.Settled.{same_force, left_of};
ghost use Rattle.cas_streams.specs.Sources.{TakesFirst, Shrinks};
ghost use Rattle.cas_partition.specs.Inner.Firsts.{with_first};
ghost use Rattle.cas_partition.specs.Inner.Lent.{rows_in};
ghost use Rattle.cas_partition.specs.Inner.Pieces.{fragment_of};
ghost use Rattle.cas_partition.specs.Inner.Passing.{lent_marker, own_marker, is_first, is_mark_next};
ghost use Rattle.cas_partition.specs.Inner.Passing.{is_cell_hidden, is_hidden, all_hidden, left_in, left_to_come};
ghost use Rattle.cas_partition.specs.Inner.Steps.{marks_in, room_left, Steps};

use crate::body::Body;
use crate::cut_key::CutKey;
use crate::lending::LentRows;
use crate::pieces::fragment_of;
use crate::ranges::{Mark, cut_of};
use crate::row_key::RowKey;
use crate::spot::Content;
use cas_atoms::{greater_deletion, standing_live};
use cas_bounds::{End, MapKey, compare_points};
use cas_cell::{Cell, Deletion, covers};
use cas_merge::left_of;
use cas_streams::Fragment;
use std::alloc::{AllocError, Global};
use std::mem;
use std::vec::IntoIter;

/// The key of a cut, and what is in force from it on.
pub(crate) type Change = (CutKey, Option<Deletion>);

// Whether the mark stands before the row.
fn is_first(mark: &CutKey, key: &RowKey) -> bool
    ensures { result ≡ is_first mark.now key.now }
{
    let row = key.front();
    let at = mark.front();
    if row.kind == at.kind && row.number != at.number {
        return row.number.cmp(&at.number).is_gt();
    }
    stands_before(mark.key(), key.row())
}

// The same by the values of both.
fn stands_before(mark: &MapKey, row: &Option<MapKey>) -> bool
    ensures { result ≡ is_first mark.now row.now }
{
    let end = match mark.end {
        End::Before | End::Row => End::Before,
        End::After => End::After,
    };
    match row {
        None => false,
        Some(key) => compare_points(
            key.order.as_slice(),
            End::Row,
            key.values.as_slice(),
            end,
            mark.values.as_slice(),
        )
        .is_gt(),
    }
}

// Whether no cell would be left under the deletion.
fn is_cell_hidden(over: Option<Deletion>, cell: &Option<Cell>) -> bool
    ensures { result ≡ is_cell_hidden over cell.now }
{
    match (over, cell) {
        (_, None) => true,
        (None, Some(_)) => false,
        (Some(d), Some(cell)) => covers(&d, cell.at()),
    }
}

// Whether nothing of what is said at a spot of a row would be left.
fn is_hidden(over: Option<Deletion>, content: &Content) -> bool
    ensures { result ≡ is_hidden over content.now }
{
    content.deletion.is_none()
        && standing_live(over, content.live).is_none()
        && is_cell_hidden(over, &content.cell)
}

// Whether that is so at all places of a row.
fn all_hidden(over: Option<Deletion>, body: &Body) -> bool
    ensures { result ≡ all_hidden over body.now }
{
    let mut rest = body.iter();
    while let Some((_, content)) = rest.next() {
        if !is_hidden(over, content) {
            return false;
        }
    }
    true
}

fn same_force(a: Option<Deletion>, b: Option<Deletion>) -> bool
    ensures { result ≡ same_force a b }
{
    match (a, b) {
        (None, None) => true,
        (Some(x), Some(y)) => x.at.cmp(&y.at).then(x.second.cmp(&y.second)).is_eq(),
        _ => false,
    }
}

// A mark is passed: it is given where it changes what is in force.
fn pass_mark(now: &mut Option<Deletion>, mark: Change) -> Option<Fragment>
    ensures left { (top : Option Deletion) → result ≡ left_of top now.old (own_marker mark) }
    ensures force { now.new ≡ mark.1 }
{
    let (key, then) = mark;
    let before = *now;
    *now = then;
    if !same_force(before, then) {
        return Some(Fragment::Marker(key.into_cut(), then));
    }
    None
}

// A row is passed: what is left of it.
fn pass_row(
    alloc: Global,
    top: Option<Deletion>,
    now: Option<Deletion>,
    row: &Option<MapKey>,
    body: &Body,
) -> Result<Option<Fragment>, AllocError>
    ensures { IfOk result (λ f. f ≡ left_in top now (fragment_of row.now body.now)) }
{
    if row.is_some() && all_hidden(greater_deletion(top, now), body) {
        return Ok(None);
    }
    match fragment_of(alloc, row, body)? {
        None => Ok(None),
        Some(fragment) => left_of(alloc, top, now, fragment),
    }
}

/// Marks one after another, the first of which can be looked at.
#[derive(Drop)]
pub(crate) struct Marks {
    first: Option<Change>,
    others: IntoIter<Change>,
}

// The next mark, and the others stay.
fn first_mark(rest: &mut IntoIter<Change>) -> Option<Change>
    ensures { with_first result (into_iter_items rest.new) ≡ into_iter_items rest.old }
{
    rest.next()
}

impl Marks {
    pub(crate) fn of(changes: Vec<Change>) -> Self
        ensures { marks_in result ≡ changes.items }
    {
        let mut others = changes.into_iter();
        Marks {
            first: first_mark(&mut others),
            others,
        }
    }

    // The first of them, which then is passed.
    fn next(&mut self) -> Option<Change>
        ensures { with_first result (marks_in self.new) ≡ marks_in self.old }
    {
        let next = first_mark(&mut self.others);
        mem::replace(&mut self.first, next)
    }
}

// Whether a mark comes next, and no row.
fn is_mark_next(marks: &Marks, rows: &LentRows<'_>) -> bool
    ensures { result ≡ is_mark_next (marks_in marks.now) (rows_in rows.now) }
{
    match (&marks.first, &rows.first) {
        (None, _) => false,
        (Some(_), None) => true,
        (Some((mark, _)), Some((key, body))) => !body.is_empty() && is_first(mark, key),
    }
}

// What comes of one step.
#[derive(Drop)]
enum Step {
    // Nothing is left.
    End,
    // A mark or a row was passed, of which something is left or not.
    Passed(Option<Fragment>),
}

// The next mark or row.
fn pass_next(
    alloc: Global,
    top: Option<Deletion>,
    now: &mut Option<Deletion>,
    rows: &mut LentRows<'_>,
    marks: &mut Marks,
) -> Result<Step, AllocError>
    ensures { IfOk result (λ s. Steps s
        (left_to_come top now.old (rows_in rows.old) (map own_marker (marks_in marks.old)))
        (left_to_come top now.new (rows_in rows.new) (map own_marker (marks_in marks.new)))
        (room_left (rows_in rows.old) (marks_in marks.old)) (room_left (rows_in rows.new) (marks_in marks.new))) }
{
    if is_mark_next(marks, rows) {
        return match marks.next() {
            Some(mark) => Ok(Step::Passed(pass_mark(now, mark))),
            None => Ok(Step::End),
        };
    }
    match rows.next() {
        None => Ok(Step::End),
        Some((key, body)) => {
            let left = pass_row(alloc, top, *now, key.row(), body)?;
            Ok(Step::Passed(left))
        }
    }
}

/// The next fragment of rows and marks: of rows what neither the deletion of the whole covers nor the
/// one in force, and marks that change what is in force.
pub(crate) fn next_left(
    alloc: Global,
    top: Option<Deletion>,
    now: &mut Option<Deletion>,
    rows: &mut LentRows<'_>,
    marks: &mut Marks,
) -> Result<Option<Fragment>, AllocError>
    ensures first { TakesFirst (left_to_come top now.old (rows_in rows.old) (map own_marker (marks_in marks.old)))
        (Some (left_to_come top now.new (rows_in rows.new) (map own_marker (marks_in marks.new)))) result }
    ensures ends { Shrinks (room_left (rows_in rows.old) (marks_in marks.old)) (room_left (rows_in rows.new) (marks_in marks.new)) result }
{
    while let Step::Passed(left) = pass_next(alloc, top, now, rows, marks)? {
        if left.is_some() {
            return Ok(left);
        }
    }
    Ok(None)
}

/// All of these, each with its cut's copy.
pub(crate) fn changes(alloc: Global, marks: &[Mark<'_>]) -> Result<Vec<Change>, AllocError>
    ensures { IfOk result (λ v. map own_marker v.items ≡ map lent_marker marks.now) }
{
    let mut out = Vec::with_capacity(alloc, marks.len())?;
    let mut rest = marks;
    while let [(key, then), others @ ..] = rest {
        out.push((CutKey::of(cut_of(key.key())?), *then))?;
        rest = others;
    }
    Ok(out)
}
