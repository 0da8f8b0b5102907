//! Rows, markers and fragments as bytes.

ghost use Rattle.std.specs.Prelude.{◌≡◌};
ghost use Rattle.cas_codec.specs.Reading.{Gives, maybe_at};
ghost use Rattle.cas_records.specs.Reading.{live_at};
ghost use Rattle.cas_fragments.specs.Reading.{least_columns, row_at, row_fragment_at, marker_at, fragment_at};

use crate::columns::{read_at_least, read_maybe_deletion};
use cas_atoms::Row;
use cas_bounds::RowOrder;
use cas_cell::{Deletion, Liveness};
use cas_codec::{ReadFault, Reader};
use cas_records::{Wanted, read_clustering, read_cut, read_live};
use cas_streams::Fragment;
use cas_types::Column;
use std::alloc::Global;

// What an `INSERT` left of a row, which may be there.
#[tactic(auto, unfolding(cas_codec::specs::Reading::maybe_at))]
fn read_maybe_live(reader: &mut Reader<'_>) -> Result<Option<Liveness>, ReadFault>
    ensures { Gives (λ l. l) result reader.new (maybe_at live_at reader.old) }
{
    match reader.flag()? {
        true => Ok(Some(read_live(reader)?)),
        false => Ok(None),
    }
}

// How many columns a row has at least.
fn least_columns(deletion: Option<Deletion>, live: Option<Liveness>) -> u16
    ensures { result ≡ least_columns deletion live }
{
    match (deletion, live) {
        (None, None) => 1,
        (None, Some(_)) => 0,
        (Some(_), _) => 0,
    }
}

/// Reads a row of a table with these columns, which orders its rows so.
#[tactic(auto, unfolding(crate::specs::Reading::row_at))]
pub fn read_row(
    alloc: Global,
    reader: &mut Reader<'_>,
    order: &RowOrder,
    columns: &[Column],
) -> Result<Row, ReadFault>
    ensures { Gives (λ r. r) result reader.new (row_at order.now columns.now reader.old) }
{
    let clustering = read_clustering(alloc, reader, order)?;
    let deletion = read_maybe_deletion(reader)?;
    let live = read_maybe_live(reader)?;
    let least = least_columns(deletion, live);
    let columns = read_at_least(alloc, reader, columns, Wanted::Regular, least)?;
    Ok(Row {
        clustering,
        deletion,
        live,
        columns,
    })
}

#[tactic(auto, unfolding(crate::specs::Reading::row_fragment_at))]
fn read_row_fragment(
    alloc: Global,
    reader: &mut Reader<'_>,
    order: &RowOrder,
    columns: &[Column],
) -> Result<Fragment, ReadFault>
    ensures { Gives (λ f. f) result reader.new (row_fragment_at order.now columns.now reader.old) }
{
    Ok(Fragment::Row(read_row(alloc, reader, order, columns)?))
}

#[tactic(auto, unfolding(crate::specs::Reading::marker_at))]
fn read_marker(
    alloc: Global,
    reader: &mut Reader<'_>,
    order: &RowOrder,
) -> Result<Fragment, ReadFault>
    ensures { Gives (λ f. f) result reader.new (marker_at order.now reader.old) }
{
    let cut = read_cut(alloc, reader, order)?;
    let deletion = read_maybe_deletion(reader)?;
    Ok(Fragment::Marker(cut, deletion))
}

/// Reads a fragment of a table with these columns, which orders its rows so.
#[tactic(auto, unfolding(crate::specs::Reading::fragment_at))]
pub fn read_fragment(
    alloc: Global,
    reader: &mut Reader<'_>,
    order: &RowOrder,
    columns: &[Column],
) -> Result<Fragment, ReadFault>
    ensures { Gives (λ f. f) result reader.new (fragment_at order.now columns.now reader.old) }
{
    match reader.u8_within(1, 2)? {
        1 => read_row_fragment(alloc, reader, order, columns),
        _ => read_marker(alloc, reader, order),
    }
}
