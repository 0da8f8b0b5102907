//! Rows, markers and fragments, passed over.

ghost use Rattle.std.specs.Prelude.{◌≡◌};
ghost use Rattle.cas_bounds.specs.Points.{side};
ghost use Rattle.cas_codec.specs.Reading.{Gives, maybe_at};
ghost use Rattle.cas_records.specs.Reading.{live_at};
ghost use Rattle.cas_fragments.specs.Reading.{least_columns, row_at, row_fragment_at, marker_at, fragment_at};
ghost use Rattle.cas_skips.specs.Told.{told};
ghost use Rattle.cas_skips.specs.Marks.{mark_of};
ghost use Rattle.cas_skips.specs.Inner.Passing.{seen, mark_at};

use crate::columns::{read_maybe_deletion, skip_columns};
use crate::places::{see_clustering, see_cut};
use cas_bounds::{End, RowOrder};
use cas_cell::{Deletion, Liveness};
use cas_codec::{ReadFault, Reader};
use cas_records::read_live;
use cas_types::Column;

/// What is told of a fragment besides the values of its place: whether it is a row or a cut before
/// or after them, and, of a marker, what is in force from there on.
#[derive(Clone, Copy)]
pub struct Passed {
    pub end: End,
    pub opens: Option<Option<Deletion>>,
}

// What an `INSERT` left of a row, which may be there.
#[tactic(auto, unfolding(cas_codec::specs::Reading::maybe_at))]
#[inline(always)]
fn read_maybe_live(reader: &mut Reader<'_>) -> Result<Option<Liveness>, ReadFault>
    ensures { Gives (λ l. l) result reader.new (maybe_at live_at reader.old) }
{
    match reader.flag()? {
        true => Ok(Some(read_live(reader)?)),
        false => Ok(None),
    }
}

// How many columns a row has at least.
#[inline(always)]
fn least_columns(deletion: Option<Deletion>, live: Option<Liveness>) -> u16
    ensures { result ≡ least_columns deletion live }
{
    match (deletion, live) {
        (None, None) => 1,
        (None, Some(_)) => 0,
        (Some(_), _) => 0,
    }
}

// The values of a row's place; the row is passed over.
#[tactic(auto, unfolding(cas_fragments::specs::Reading::row_at))]
#[inline(always)]
fn skip_row<'a>(
    reader: &mut Reader<'a>,
    order: &RowOrder,
    columns: &[Column],
    values: &mut Vec<&'a [u8]>,
) -> Result<(), ReadFault>
    ensures { Gives (λ done. seen values.new.items) result reader.new (told (λ r. r.clustering.values) (row_at order.now columns.now reader.old)) }
{
    see_clustering(reader, order, values)?;
    let deletion = read_maybe_deletion(reader)?;
    let live = read_maybe_live(reader)?;
    skip_columns(reader, columns, least_columns(deletion, live))
}

#[tactic(auto, unfolding(cas_fragments::specs::Reading::row_fragment_at))]
#[inline(always)]
fn skip_row_fragment<'a>(
    reader: &mut Reader<'a>,
    order: &RowOrder,
    columns: &[Column],
    values: &mut Vec<&'a [u8]>,
) -> Result<Passed, ReadFault>
    ensures { Gives (λ p. mark_at p.end p.opens (seen values.new.items)) result reader.new (told mark_of (row_fragment_at order.now columns.now reader.old)) }
{
    skip_row(reader, order, columns, values)?;
    Ok(Passed {
        end: End::Row,
        opens: None,
    })
}

/// The end of a cut.
pub(crate) fn end_of(after: bool) -> End
    ensures { result ≡ side after }
{
    if after { End::After } else { End::Before }
}

#[tactic(auto, unfolding(cas_fragments::specs::Reading::marker_at))]
#[inline(always)]
fn skip_marker<'a>(
    reader: &mut Reader<'a>,
    order: &RowOrder,
    values: &mut Vec<&'a [u8]>,
) -> Result<Passed, ReadFault>
    ensures { Gives (λ p. mark_at p.end p.opens (seen values.new.items)) result reader.new (told mark_of (marker_at order.now reader.old)) }
{
    let after = see_cut(reader, order, values)?;
    let deletion = read_maybe_deletion(reader)?;
    Ok(Passed {
        end: end_of(after),
        opens: Some(deletion),
    })
}

/// Passes over a fragment of a table with these columns, which orders its rows so. Of its place the
/// values are told by reference.
#[tactic(auto, unfolding(cas_fragments::specs::Reading::fragment_at))]
#[inline(always)]
pub(crate) fn skip_fragment<'a>(
    reader: &mut Reader<'a>,
    order: &RowOrder,
    columns: &[Column],
    values: &mut Vec<&'a [u8]>,
) -> Result<Passed, ReadFault>
    ensures { Gives (λ p. mark_at p.end p.opens (seen values.new.items)) result reader.new (told mark_of (fragment_at order.now columns.now reader.old)) }
{
    match reader.u8_within(1, 2)? {
        1 => skip_row_fragment(reader, order, columns, values),
        _ => skip_marker(reader, order, values),
    }
}
