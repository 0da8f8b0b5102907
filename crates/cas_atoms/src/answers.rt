//! The live view: what a list of atoms answers to a query at a moment.

ghost use Rattle.std.specs.Prelude.{◌≡◌, ◌≤ℤ◌, pos, [], map, IfOk};
ghost use Rattle.std.specs.Option.{option_copied};
ghost use Rattle.cas_atoms.specs.Coordinates.{row_key, clustered};
ghost use Rattle.cas_atoms.specs.Answers.{AreNumbered, is_answered, answered, turned, is_whole, with_static, limited, row_shown, answer};

use crate::atom::Atom;
use crate::picks::picked;
use crate::place::Partition;
use crate::query::{LiveRow, Query};
use crate::rows_and_paths::{copy_values, rows_of};
use crate::shown_rows::{is_shown, is_static_shown};
use cas_bounds::{Slice, Values, between, clustering_order};
use cas_types::{List, Mem};
use std::alloc::{AllocError, Global};

// Whether the row is in the slice, and shown.
fn is_answered(
    alloc: Global,
    query: &Query,
    partition: Partition<'_>,
    values: &Values,
) -> Result<bool, AllocError>
    requires { AreNumbered query.now.columns }
    ensures { IfOk result (λ b. b ≡ is_answered query.now partition.entry.atoms.now partition.entry.now values.now) }
{
    if !between(&query.slice.lo, &query.slice.hi, values.as_slice()) {
        return Ok(false);
    }
    is_shown(alloc, partition, query.columns.as_slice(), values)
}

// The rows that answer, in the table's order.
#[tactic(auto, unfolding(crate::specs::Answers::answered))]
fn answered(
    alloc: Global,
    query: &Query,
    partition: Partition<'_>,
) -> Result<Vec<Values>, AllocError>
    requires { AreNumbered query.now.columns }
    ensures { IfOk result (λ v. v.items ≡ answered query.now partition.entry.atoms.now partition.entry.now) }
{
    let order = clustering_order(alloc, query.columns.as_slice())?;
    let rows = rows_of(alloc, order.as_slice(), partition.atoms)?;
    let mut kept = Vec::new(alloc);
    for values in &rows {
        if is_answered(alloc, query, partition, values)? {
            kept.push(copy_values(values)?)?;
        }
    }
    Ok(kept)
}

fn turned(reversed: bool, rows: Vec<Values>) -> Vec<Values>
    ensures { result.items ≡ turned reversed rows.items }
{
    let mut rows = rows;
    if reversed {
        rows.reverse();
    }
    rows
}

// Whether the slice restricts no clustering column.
fn is_whole(slice: &Slice) -> bool
    ensures { result ≡ is_whole slice.now }
{
    let begins = slice.lo.prefix.as_slice().is_empty() && !slice.lo.after;
    let ends = slice.hi.prefix.as_slice().is_empty() && slice.hi.after;
    begins && ends
}

// The rows by their keys, of which the static row's is `None`.
fn keys(alloc: Global, rows: &[Values]) -> Result<Vec<Option<Values>>, AllocError>
    ensures { IfOk result (λ v. map row_key v.items ≡ map clustered rows.now) }
{
    let mut keys = Vec::new(alloc);
    for values in rows {
        keys.push(Some(copy_values(values)?))?;
    }
    Ok(keys)
}

// The static row, where it has an alive cell and the query restricts no clustering column.
fn static_alone(
    alloc: Global,
    query: &Query,
    partition: Partition<'_>,
) -> Result<Vec<Option<Values>>, AllocError>
    requires { AreNumbered query.now.columns }
    ensures { IfOk result (λ v. map row_key v.items ≡ with_static query.now partition.entry.atoms.now partition.entry.now []) }
{
    if !is_whole(&query.slice) {
        return Ok(Vec::new(alloc));
    }
    if !is_static_shown(alloc, partition, query.columns.as_slice())? {
        return Ok(Vec::new(alloc));
    }
    Ok(vec![in alloc; None]?)
}

// The rows that answer, or where there is none maybe the static row.
fn with_static(
    alloc: Global,
    query: &Query,
    partition: Partition<'_>,
    rows: &[Values],
) -> Result<Vec<Option<Values>>, AllocError>
    requires { AreNumbered query.now.columns }
    ensures { IfOk result (λ v. map row_key v.items ≡ with_static query.now partition.entry.atoms.now partition.entry.now rows.now) }
{
    match rows {
        [] => static_alone(alloc, query, partition),
        [_row, _rest @ ..] => keys(alloc, rows),
    }
}

fn limited(limit: Option<u32>, rows: Vec<Option<Values>>) -> Vec<Option<Values>>
    ensures { map row_key result.items ≡ limited limit (map row_key rows.items) }
{
    let mut rows = rows;
    if let Some(count) = limit {
        rows.truncate(count as usize);
    }
    rows
}

/// What the row of these values, or with none the static row, shows: a value for each pick.
#[tactic(auto, unfolding(crate::specs::Answers::row_shown))]
pub fn row_shown(
    alloc: Global,
    query: &Query,
    partition: Partition<'_>,
    row: Option<&Values>,
) -> Result<LiveRow, AllocError>
    requires { pos 0 ≤ℤ partition.now }
    ensures { IfOk result (λ r. r ≡ row_shown query.now partition.entry.atoms.now partition.entry.now (row_key (option_copied row.entry))) }
{
    let mut values = Vec::new(alloc);
    for pick in query.picks.as_slice() {
        values.push(picked(alloc, query, partition, row, *pick)?)?;
    }
    Ok(LiveRow {
        values: List::from_vec(values),
    })
}

/// What the atoms of a partition answer to the query at the moment, in seconds: the rows of the
/// slice that are shown, in the table's order or its reverse, as many as the limit says, and of
/// each a value for each pick.
#[tactic(auto, unfolding(crate::specs::Answers::answer))]
pub fn answer(alloc: Global, atoms: &[Atom], query: &Query, now: i64) -> Result<Vec<LiveRow>, Mem>
    requires begun { pos 0 ≤ℤ now }
    requires columns { AreNumbered query.now.columns }
    ensures { IfOk result (λ v. v.items ≡ answer query.now atoms.now now) }
{
    let partition = Partition { atoms, now };
    let rows = turned(query.reversed, answered(alloc, query, partition)?);
    let keys = limited(query.limit, with_static(alloc, query, partition, &rows)?);
    let mut shown = Vec::new(alloc);
    for key in &keys {
        shown.push(row_shown(alloc, query, partition, key.as_ref())?)?;
    }
    Ok(shown)
}
