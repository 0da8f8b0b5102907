//! A row as a fragment, put together of what is said at its places.

ghost use Rattle.std.specs.Prelude.{◌≡◌, Option, None, Some, IfOk, OnOk, map, fold};
ghost use Rattle.cas_bounds.specs.declared.map_key.MapKey.{MapKey};
ghost use Rattle.cas_streams.specs.declared.fragment.Fragment.TheVariants as fragment;
ghost use Rattle.cas_streams.specs.Joined.{joined_fragment};
ghost use Rattle.cas_partition.specs.Spots.{column_at, columns_at, cells_at, piece, row_piece};
ghost use Rattle.cas_partition.specs.Inner.Pieces.{further, said_in, lent_in, joined_pieces, joined_in};
ghost use Rattle.cas_partition.specs.Inner.Pieces.{joined_both, is_short, are_plain, fragment_of, are_below, Takes};

use crate::body::Body;
use crate::spot::{Content, Place};
use cas_atoms::{ColumnRef, PathCell, Row, RowColumn};
use cas_bounds::{Clustering, MapKey, RowOrder, Values};
use cas_cell::Cell;
use cas_merge::joined_fragment;
use cas_streams::Fragment;
use cas_types::{Bytes, List};
use std::alloc::{AllocError, Global};
use std::mem;
use std::mem::drop;

// The cell, where there is one and a path.
fn cells_at(
    alloc: Global,
    path: &Option<Bytes>,
    cell: &Option<Cell>,
) -> Result<Vec<PathCell>, AllocError>
    ensures { IfOk result (λ v. v.items ≡ cells_at path.now cell.now) }
{
    match (path, cell) {
        (Some(path), Some(cell)) => {
            let mut cells = Vec::with_capacity(alloc, 1)?;
            cells.push(PathCell {
                path: path.clone()?,
                cell: cell.copied()?,
            })?;
            Ok(cells)
        }
        _ => Ok(Vec::new(alloc)),
    }
}

// What is said of a column, or of a cell of it.
fn column_at(
    alloc: Global,
    number: u16,
    path: &Option<Bytes>,
    content: &Content,
) -> Result<RowColumn, AllocError>
    ensures { IfOk result (λ c. c ≡ column_at number path.now content.now) }
{
    let cells = cells_at(alloc, path, &content.cell)?;
    Ok(RowColumn {
        column: ColumnRef {
            number,
            path: content.tag,
        },
        deletion: content.deletion,
        cells: List::from_vec(cells),
    })
}

// The column, where there is one.
fn columns_at(
    alloc: Global,
    column: Option<u16>,
    path: &Option<Bytes>,
    content: &Content,
) -> Result<Vec<RowColumn>, AllocError>
    ensures { IfOk result (λ v. v.items ≡ columns_at column path.now content.now) }
{
    let mut columns = Vec::new(alloc);
    if let Some(number) = column {
        columns.push(column_at(alloc, number, path, content)?)?;
    }
    Ok(columns)
}

// What is said at a place of the row that stands there.
fn piece_at(
    alloc: Global,
    clustering: Clustering,
    place: &Place,
    content: &Content,
) -> Result<Fragment, AllocError>
    ensures { IfOk result (λ f. f ≡ fragment.Row (row_piece clustering place.now.column place.now.path content.now)) }
{
    let whole = place.column.is_none();
    let columns = columns_at(alloc, place.column, &place.path, content)?;
    Ok(Fragment::Row(Row {
        clustering,
        deletion: if whole { content.deletion } else { None },
        live: if whole { content.live } else { None },
        columns: List::from_vec(columns),
    }))
}

// What is said at a place of the static row.
fn static_piece(alloc: Global, place: &Place, content: &Content) -> Result<Fragment, AllocError>
    ensures { IfOk result (λ f. f ≡ piece None place.now.column place.now.path content.now) }
{
    let columns = columns_at(alloc, place.column, &place.path, content)?;
    Ok(Fragment::Static(List::from_vec(columns)))
}

// What is said at a place of a row, as a piece of it.
fn piece(
    alloc: Global,
    row: &Option<MapKey>,
    place: &Place,
    content: &Content,
) -> Result<Fragment, AllocError>
    ensures { IfOk result (λ f. f ≡ piece row.now place.now.column place.now.path content.now) }
{
    match row {
        None => static_piece(alloc, place, content),
        Some(key) => {
            let clustering = Clustering {
                values: key.values.clone()?,
                order: key.order.clone()?,
            };
            piece_at(alloc, clustering, place, content)
        }
    }
}

// The same for a row that is there already: where it stands isn't copied.
fn further(alloc: Global, place: &Place, content: &Content) -> Result<Fragment, AllocError>
    ensures { IfOk result (λ f. f ≡ further place.now.column place.now.path content.now) }
{
    let nowhere = Clustering {
        values: Values::from_vec(Vec::new(alloc)),
        order: RowOrder::from_vec(Vec::new(alloc)),
    };
    piece_at(alloc, nowhere, place, content)
}

// Whether all columns have lower numbers.
fn are_below(columns: &[RowColumn], number: u16) -> bool
    ensures { result ≡ are_below columns.now number }
{
    match columns {
        [] => true,
        [c, rest @ ..] => c.column.number < number && are_below(rest, number),
    }
}

// A row takes what is said at a further place of it, where that stands behind all that it has.
fn push_column(
    alloc: Global,
    row: &mut Row,
    place: &Place,
    content: &Content,
) -> Result<bool, AllocError>
    ensures { IfOk result (λ taken. Takes taken (fragment.Row row.old) (further place.now.column place.now.path content.now) (fragment.Row row.new)) }
{
    let Some(number) = place.column else {
        return Ok(false);
    };
    if !are_below(row.columns.as_slice(), number) {
        return Ok(false);
    }
    let column = column_at(alloc, number, &place.path, content)?;
    let none = List::from_vec(Vec::new(alloc));
    let mut columns = mem::replace(&mut row.columns, none).into_vec();
    columns.push(column)?;
    row.columns = List::from_vec(columns);
    Ok(true)
}

// So does a fragment that is a row.
fn push_to(
    alloc: Global,
    fragment: &mut Fragment,
    place: &Place,
    content: &Content,
) -> Result<bool, AllocError>
    ensures { IfOk result (λ taken. Takes taken fragment.old (further place.now.column place.now.path content.now) fragment.new) }
{
    match fragment {
        Fragment::Row(row) => push_column(alloc, row, place, content),
        _ => Ok(false),
    }
}

// A fragment takes in a further piece.
fn join(alloc: Global, fragment: &mut Fragment, other: Fragment) -> Result<(), AllocError>
    ensures { OnOk result (fragment.new ≡ joined_fragment fragment.old other) }
{
    let nothing = Fragment::Static(List::from_vec(Vec::new(alloc)));
    let before = mem::replace(fragment, nothing);
    let joined = joined_fragment(alloc, before, other)?;
    drop(mem::replace(fragment, joined));
    Ok(())
}

// A row takes in what is said at a further place of it.
fn take_in_row(
    alloc: Global,
    fragment: &mut Fragment,
    place: &Place,
    content: &Content,
) -> Result<(), AllocError>
    ensures { OnOk result (fragment.new ≡ joined_fragment fragment.old (further place.now.column place.now.path content.now)) }
{
    if push_to(alloc, fragment, place, content)? {
        return Ok(());
    }
    let other = further(alloc, place, content)?;
    join(alloc, fragment, other)
}

// So does the static row, or a row.
fn take_in(
    alloc: Global,
    fragment: &mut Fragment,
    row: &Option<MapKey>,
    place: &Place,
    content: &Content,
) -> Result<(), AllocError>
    ensures { OnOk result (fragment.new ≡ joined_fragment fragment.old (piece row.now place.now.column place.now.path content.now)) }
{
    match row {
        None => {
            let other = static_piece(alloc, place, content)?;
            join(alloc, fragment, other)
        }
        Some(_) => take_in_row(alloc, fragment, place, content),
    }
}

// What is said of the row, one place after another.
fn in_order(
    alloc: Global,
    row: &Option<MapKey>,
    body: &Body,
) -> Result<Option<Fragment>, AllocError>
    ensures { IfOk result (λ f. f ≡ joined_pieces (map (said_in row.now) body.now)) }
{
    let mut rest = body.iter();
    let Some((place, content)) = rest.next() else {
        return Ok(None);
    };
    let mut fragment = piece(alloc, row, place, content)?;
    while let Some((place, content)) = rest.next() {
        take_in(alloc, &mut fragment, row, place, content)?;
    }
    Ok(Some(fragment))
}

// The same of some of its entries.
fn of_few(
    alloc: Global,
    row: &Option<MapKey>,
    entries: &[(&Place, &Content)],
) -> Result<Option<Fragment>, AllocError>
    ensures { IfOk result (λ f. f ≡ joined_pieces (map (lent_in row.now) entries.now)) }
{
    let [(place, content), others @ ..] = entries else {
        return Ok(None);
    };
    let mut fragment = piece(alloc, row, place, content)?;
    let mut rest = others;
    while let [(place, content), later @ ..] = rest {
        take_in(alloc, &mut fragment, row, place, content)?;
        rest = later;
    }
    Ok(Some(fragment))
}

fn joined_both(
    alloc: Global,
    left: Option<Fragment>,
    right: Option<Fragment>,
) -> Result<Option<Fragment>, AllocError>
    ensures { IfOk result (λ f. f ≡ joined_both left right) }
{
    match (left, right) {
        (None, right) => Ok(right),
        (Some(f), None) => Ok(Some(f)),
        (Some(f), Some(g)) => Ok(Some(joined_fragment(alloc, f, g)?)),
    }
}

// Many entries in halves down to fifteen, so that each is moved a few times.
fn in_halves(
    alloc: Global,
    row: &Option<MapKey>,
    entries: &[(&Place, &Content)],
    depth: usize,
) -> Result<Option<Fragment>, AllocError>
    ensures { IfOk result (λ f. f ≡ joined_in depth (map (lent_in row.now) entries.now)) }
{
    if depth == 0 {
        return of_few(alloc, row, entries);
    }
    if entries.len() < 16 {
        return of_few(alloc, row, entries);
    }
    let (front, back) = entries.split_at(entries.len() / 2);
    let left = in_halves(alloc, row, front, depth - 1)?;
    let right = in_halves(alloc, row, back, depth - 1)?;
    joined_both(alloc, left, right)
}

// The entries of a row, lent.
fn lent<'a>(alloc: Global, body: &'a Body) -> Result<Vec<(&'a Place, &'a Content)>, AllocError>
    ensures { IfOk result (λ v. (row : Option MapKey) → map (lent_in row) v.items ≡ map (said_in row) body.now) }
{
    let mut entries = Vec::new(alloc);
    let mut rest = body.iter();
    while let Some((place, content)) = rest.next() {
        entries.push((place, content))?;
    }
    Ok(entries)
}

// Whether the path is that of a plain column, or there is none.
fn is_short(path: &Option<Bytes>) -> bool
    ensures { result ≡ is_short path.now }
{
    match path {
        None => true,
        Some(path) => path.as_slice().is_empty(),
    }
}

// Whether no entry is an element of a collection.
fn are_plain(body: &Body) -> bool
    ensures { result ≡ are_plain body.now }
{
    let mut rest = body.iter();
    while let Some((place, _)) = rest.next() {
        if !is_short(&place.path) {
            return false;
        }
    }
    true
}

// Of a row with elements of collections.
fn of_many(alloc: Global, row: &Option<MapKey>, body: &Body) -> Result<Option<Fragment>, AllocError>
    ensures { IfOk result (λ f. f ≡ joined_in 64 (map (said_in row.now) body.now)) }
{
    let entries = lent(alloc, body)?;
    in_halves(alloc, row, &entries, 64)
}

/// What is said of the row, if anything. Elements of a collection are kept by the bytes of their
/// paths, and get into the column's order here.
pub(crate) fn fragment_of(
    alloc: Global,
    row: &Option<MapKey>,
    body: &Body,
) -> Result<Option<Fragment>, AllocError>
    ensures { IfOk result (λ f. f ≡ fragment_of row.now body.now) }
{
    if are_plain(body) {
        in_order(alloc, row, body)
    } else {
        of_many(alloc, row, body)
    }
}
