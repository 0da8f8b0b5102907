//! What a row in order shows, read from itself.

ghost use Rattle.std.specs.Prelude.{◌≡◌, ◌+◌, ◌<◌, ◌^◌, ◌&&◌, ◌≤ℤ◌, pos, true, length, slice_get, IfOk};
ghost use Rattle.std.specs.Option.{option_copied};
ghost use Rattle.cas_types.specs.Schemas.{is_regular};
ghost use Rattle.cas_atoms.specs.Coordinates.{clustered};
ghost use Rattle.cas_atoms.specs.Picks.{picked};
ghost use Rattle.cas_atoms.specs.Answers.{AreNumbered, is_living};
ghost use Rattle.cas_live.specs.Views.{row_view, if_answered};
ghost use Rattle.cas_live.specs.Inner.InOrder.{are_of_all, are_in_order};
ghost use Rattle.cas_live.specs.Inner.OwnRow.{of_whole, top_of, row_cover, columns_from, front_of, cover_in, cells_in, some_shows};
ghost use Rattle.cas_live.specs.Inner.OwnRow.{is_beside_key, none_of_key, key_type, own_has_cell, own_is_shown, number_of};
ghost use Rattle.cas_live.specs.Inner.OwnRow.{if_regular, own_or_shared, own_picked, own_row, own_answer};

use crate::in_order::column_at;
use crate::own_cells::{cells_in, columns_from, cover_in, front_of, own_pick, some_shows};
use cas_atoms::{
    Atom, Datum, LiveRow, Partition, Pick, Query, Row, RowColumn, greater_deletion, picked,
    standing_live,
};
use cas_bounds::{Values, between};
use cas_cell::{Deletion, Liveness, live_alive};
use cas_types::{Bytes, Column, List, TypeTag};
use std::alloc::{AllocError, Global};

// The deletion, where the atom is one of the whole partition.
fn of_whole(atom: &Atom) -> Option<Deletion>
    ensures { result ≡ of_whole atom.now }
{
    match atom {
        Atom::PartitionDeletion(d) => Some(*d),
        _ => None,
    }
}

// The greatest deletion of the whole partition.
fn top_of(all: &[Atom]) -> Option<Deletion>
    ensures { result ≡ top_of all.now }
{
    let mut best = None;
    for atom in all {
        best = greater_deletion(best, of_whole(atom));
    }
    best
}

// The greatest deletion of the whole row: the partition's, that of a range, and its own.
fn row_cover(all: &[Atom], force: Option<Deletion>, row: &Row) -> Option<Deletion>
    ensures { result ≡ row_cover all.now force row.now }
{
    greater_deletion(top_of(all), greater_deletion(force, row.deletion))
}

// Whether the column is a regular one and has an alive cell here.
fn has_cell(now: i64, over: Option<Deletion>, column: &Column, mine: Option<&RowColumn>) -> bool
    ensures { result ≡ (is_regular column.now.kind && some_shows now (cover_in over (option_copied mine.entry)) (cells_in (option_copied mine.entry))) }
{
    column.kind.is_regular() && some_shows(now, cover_in(over, mine), cells_in(mine))
}

// Whether some regular column of those from that number on has an alive cell among the row's.
fn own_has_cell(
    now: i64,
    over: Option<Deletion>,
    number: u16,
    columns: &[Column],
    mine: &[RowColumn],
) -> bool
    requires { number + length columns.now < 2 ^ 16 }
    ensures { result ≡ own_has_cell now over number columns.now mine.now }
{
    match columns {
        [] => false,
        [c, rest @ ..] => {
            let here = columns_from(number, mine);
            if has_cell(now, over, c, front_of(number, here)) {
                true
            } else {
                own_has_cell(now, over, number + 1, rest, here)
            }
        }
    }
}

fn is_living(now: i64, live: Option<Liveness>) -> bool
    ensures { result ≡ is_living now live }
{
    match live {
        Some(live) => live_alive(&live, now),
        None => false,
    }
}

// Whether the row lives by its `INSERT` or has an alive cell.
fn own_is_shown(now: i64, over: Option<Deletion>, columns: &[Column], row: &Row) -> bool
    requires { AreNumbered columns.now }
    ensures { result ≡ own_is_shown now over columns.now row.now }
{
    if is_living(now, standing_live(over, row.live)) {
        return true;
    }
    own_has_cell(now, over, 0, columns, row.columns.as_slice())
}

// The column that a pick names.
fn number_of(pick: Pick) -> u16
    ensures { result ≡ number_of pick }
{
    match pick {
        Pick::Value(number) => number,
        Pick::WriteTime(number) => number,
        Pick::Ttl(number) => number,
    }
}

// The column, where it is a regular one.
fn if_regular(column: Option<&Column>) -> Option<&Column>
    ensures { option_copied result ≡ if_regular (option_copied column.entry) }
{
    match column {
        Some(c) if c.kind.is_regular() => Some(c),
        _ => None,
    }
}

// Whether the column isn't one of the partition key.
fn is_beside_key(column: &Column) -> bool
    ensures { result ≡ is_beside_key column.now }
{
    !column.kind.is_partition()
}

// Whether none of the columns is.
fn none_of_key(columns: &[Column]) -> bool
    ensures { result ≡ none_of_key columns.now }
{
    let mut rest = columns;
    while let [c, others @ ..] = rest {
        if !is_beside_key(c) {
            return false;
        }
        rest = others;
    }
    true
}

// The type of the partition key, where the first column alone makes it.
fn key_type(columns: &[Column]) -> Option<TypeTag>
    ensures { result ≡ key_type columns.now }
{
    match columns {
        [c, others @ ..] if c.kind.is_partition() && none_of_key(others) => Some(c.tag),
        _ => None,
    }
}

// What the row shows for a pick by what all rows share and by its key.
fn picked_of_all(
    alloc: Global,
    query: &Query,
    all: Partition<'_>,
    values: &Values,
    pick: Pick,
) -> Result<Datum, AllocError>
    requires { pos 0 ≤ℤ all.now }
    ensures { IfOk result (λ d. d ≡ picked query.now all.entry.atoms.now all.entry.now (clustered values.now) pick) }
{
    if let Pick::Value(0) = pick {
        if let Some(tag) = key_type(query.columns.as_slice()) {
            return Ok(Datum::One(tag, Bytes::copy_of(alloc, query.key.as_slice())?));
        }
    }
    picked(alloc, query, all, Some(values), pick)
}

// What the row shows for a pick of that column of its own, or of one that isn't regular.
fn own_or_shared(
    alloc: Global,
    query: &Query,
    all: Partition<'_>,
    over: Option<Deletion>,
    values: &Values,
    mine: Option<&RowColumn>,
    pick: Pick,
) -> Result<Datum, AllocError>
    requires { pos 0 ≤ℤ all.now }
    ensures { IfOk result (λ d. d ≡ own_or_shared (if_regular (slice_get query.now.columns (number_of pick)))
        query.now all.entry.atoms.now all.entry.now over values.now (option_copied mine.entry) pick) }
{
    match if_regular(column_at(query.columns.as_slice(), number_of(pick))) {
        Some(c) => own_pick(
            alloc,
            pick,
            all.now,
            cover_in(over, mine),
            cells_in(mine),
            c,
        ),
        None => picked_of_all(alloc, query, all, values, pick),
    }
}

// The columns from that number on, by those from another on.
fn seek<'a>(
    columns: &'a [RowColumn],
    last: u16,
    rest: &'a [RowColumn],
    number: u16,
) -> &'a [RowColumn]
    requires { rest.now ≡ columns_from last columns.now }
    ensures { result.now ≡ columns_from number columns.now }
{
    if number < last {
        columns_from(number, columns)
    } else {
        columns_from(number, rest)
    }
}

// What the row shows, a value for each pick.
fn own_row(
    alloc: Global,
    query: &Query,
    all: Partition<'_>,
    over: Option<Deletion>,
    row: &Row,
) -> Result<LiveRow, AllocError>
    requires { pos 0 ≤ℤ all.now }
    ensures { IfOk result (λ r. r ≡ own_row query.now all.entry.atoms.now all.entry.now over row.now) }
{
    let columns = row.columns.as_slice();
    let picks = query.picks.as_slice();
    let mut values = Vec::with_capacity(alloc, picks.len())?;
    let mut last = 0;
    let mut rest = columns;
    for pick in picks {
        let number = number_of(*pick);
        rest = seek(columns, last, rest, number);
        last = number;
        let mine = front_of(number, rest);
        values.push(own_or_shared(alloc, query, all, over, &row.clustering.values, mine, *pick)?)?;
    }
    Ok(LiveRow {
        values: List::from_vec(values),
    })
}

// What the row shows, where it is in the slice and shown.
fn own_answer(
    alloc: Global,
    query: &Query,
    all: Partition<'_>,
    over: Option<Deletion>,
    row: &Row,
) -> Result<Option<LiveRow>, AllocError>
    requires begun { pos 0 ≤ℤ all.now }
    requires columns { AreNumbered query.now.columns }
    ensures { IfOk result (λ r. r ≡ own_answer query.now all.entry.atoms.now all.entry.now over row.now) }
{
    let values = row.clustering.values.as_slice();
    if !between(&query.slice.lo, &query.slice.hi, values) {
        return Ok(None);
    }
    if !own_is_shown(all.now, over, query.columns.as_slice(), row) {
        return Ok(None);
    }
    Ok(Some(own_row(alloc, query, all, over, row)?))
}

/// What a row in order shows, where it answers, read from itself and from what all rows share.
pub(crate) fn show_in_order(
    alloc: Global,
    query: &Query,
    all: Partition<'_>,
    force: Option<Deletion>,
    row: &Row,
) -> Result<Option<LiveRow>, AllocError>
    requires begun { pos 0 ≤ℤ all.now }
    requires columns { AreNumbered query.now.columns }
    requires shared { are_of_all all.atoms.now ≡ true }
    requires order { are_in_order query.now.columns row.now.columns ≡ true }
    ensures { IfOk result (λ r. r ≡
        if_answered query.now all.entry.now (row_view all.entry.atoms.now force row.now) row.now.clustering.values) }
{
    own_answer(alloc, query, all, row_cover(all.atoms, force, row), row)
}
