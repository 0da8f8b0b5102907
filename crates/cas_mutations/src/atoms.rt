//! Atoms as bytes.

ghost use Rattle.std.specs.Prelude.{◌≡◌};
ghost use Rattle.cas_codec.specs.Reading.{Gives};
ghost use Rattle.cas_mutations.specs.Reading.{partition_deletion_at, above_at, range_deletion_at, row_deletion_at};
ghost use Rattle.cas_mutations.specs.Reading.{collection_deletion_at, live_atom_at, write_at, static_write_at};
ghost use Rattle.cas_mutations.specs.Reading.{static_collection_deletion_at, atom_at};

use cas_atoms::Atom;
use cas_bounds::{Cut, RowOrder, cmp_cut};
use cas_codec::{ReadFault, Reader};
use cas_records::{
    Wanted, read_cell, read_clustering, read_column, read_cut, read_deletion, read_live, read_path,
};
use cas_types::Column;
use std::alloc::Global;

#[tactic(auto, unfolding(crate::specs::Reading::partition_deletion_at))]
fn read_partition_deletion(reader: &mut Reader<'_>) -> Result<Atom, ReadFault>
    ensures { Gives (λ a. a) result reader.new (partition_deletion_at reader.old) }
{
    Ok(Atom::PartitionDeletion(read_deletion(reader)?))
}

// A cut that stands above another one.
#[tactic(auto, unfolding(crate::specs::Reading::above_at, cas_codec::specs::Reading::checked))]
fn read_above(
    alloc: Global,
    reader: &mut Reader<'_>,
    order: &RowOrder,
    lo: &Cut,
) -> Result<Cut, ReadFault>
    requires { lo.now.order ≡ order.now }
    ensures { Gives (λ c. c) result reader.new (above_at order.now lo.now reader.old) }
{
    let at = reader.at();
    let hi = read_cut(alloc, reader, order)?;
    if !cmp_cut(lo, &hi).is_lt() {
        return Err(ReadFault::Bad { at });
    }
    Ok(hi)
}

#[tactic(auto, unfolding(crate::specs::Reading::range_deletion_at))]
fn read_range_deletion(
    alloc: Global,
    reader: &mut Reader<'_>,
    order: &RowOrder,
) -> Result<Atom, ReadFault>
    ensures { Gives (λ a. a) result reader.new (range_deletion_at order.now reader.old) }
{
    let lo = read_cut(alloc, reader, order)?;
    let hi = read_above(alloc, reader, order, &lo)?;
    let deletion = read_deletion(reader)?;
    Ok(Atom::RangeDeletion(lo, hi, deletion))
}

#[tactic(auto, unfolding(crate::specs::Reading::row_deletion_at))]
fn read_row_deletion(
    alloc: Global,
    reader: &mut Reader<'_>,
    order: &RowOrder,
) -> Result<Atom, ReadFault>
    ensures { Gives (λ a. a) result reader.new (row_deletion_at order.now reader.old) }
{
    let row = read_clustering(alloc, reader, order)?;
    let deletion = read_deletion(reader)?;
    Ok(Atom::RowDeletion(row, deletion))
}

#[tactic(auto, unfolding(crate::specs::Reading::collection_deletion_at))]
fn read_collection_deletion(
    alloc: Global,
    reader: &mut Reader<'_>,
    order: &RowOrder,
    columns: &[Column],
) -> Result<Atom, ReadFault>
    ensures { Gives (λ a. a) result reader.new (collection_deletion_at order.now columns.now reader.old) }
{
    let row = read_clustering(alloc, reader, order)?;
    let (named, _) = read_column(reader, columns, Wanted::RegularCollection)?;
    let deletion = read_deletion(reader)?;
    Ok(Atom::CollectionDeletion(row, named, deletion))
}

#[tactic(auto, unfolding(crate::specs::Reading::live_atom_at))]
fn read_live_atom(
    alloc: Global,
    reader: &mut Reader<'_>,
    order: &RowOrder,
) -> Result<Atom, ReadFault>
    ensures { Gives (λ a. a) result reader.new (live_atom_at order.now reader.old) }
{
    let row = read_clustering(alloc, reader, order)?;
    let live = read_live(reader)?;
    Ok(Atom::Live(row, live))
}

#[tactic(auto, unfolding(crate::specs::Reading::write_at))]
fn read_write(
    alloc: Global,
    reader: &mut Reader<'_>,
    order: &RowOrder,
    columns: &[Column],
) -> Result<Atom, ReadFault>
    ensures { Gives (λ a. a) result reader.new (write_at order.now columns.now reader.old) }
{
    let row = read_clustering(alloc, reader, order)?;
    let (named, column) = read_column(reader, columns, Wanted::Regular)?;
    let path = read_path(alloc, reader, column)?;
    let cell = read_cell(alloc, reader, column)?;
    Ok(Atom::Write(row, named, path, cell))
}

#[tactic(auto, unfolding(crate::specs::Reading::static_write_at))]
fn read_static_write(
    alloc: Global,
    reader: &mut Reader<'_>,
    columns: &[Column],
) -> Result<Atom, ReadFault>
    ensures { Gives (λ a. a) result reader.new (static_write_at columns.now reader.old) }
{
    let (named, column) = read_column(reader, columns, Wanted::Static)?;
    let path = read_path(alloc, reader, column)?;
    let cell = read_cell(alloc, reader, column)?;
    Ok(Atom::StaticWrite(named, path, cell))
}

#[tactic(auto, unfolding(crate::specs::Reading::static_collection_deletion_at))]
fn read_static_collection_deletion(
    reader: &mut Reader<'_>,
    columns: &[Column],
) -> Result<Atom, ReadFault>
    ensures { Gives (λ a. a) result reader.new (static_collection_deletion_at columns.now reader.old) }
{
    let (named, _) = read_column(reader, columns, Wanted::StaticCollection)?;
    let deletion = read_deletion(reader)?;
    Ok(Atom::StaticCollectionDeletion(named, deletion))
}

/// Reads an atom of a table with these columns, which orders its rows so.
#[tactic(auto, unfolding(crate::specs::Reading::atom_at))]
pub fn read_atom(
    alloc: Global,
    reader: &mut Reader<'_>,
    order: &RowOrder,
    columns: &[Column],
) -> Result<Atom, ReadFault>
    ensures { Gives (λ a. a) result reader.new (atom_at order.now columns.now reader.old) }
{
    match reader.u8_within(1, 8)? {
        1 => read_partition_deletion(reader),
        2 => read_range_deletion(alloc, reader, order),
        3 => read_row_deletion(alloc, reader, order),
        4 => read_collection_deletion(alloc, reader, order, columns),
        5 => read_live_atom(alloc, reader, order),
        6 => read_write(alloc, reader, order, columns),
        7 => read_static_write(alloc, reader, columns),
        _ => read_static_collection_deletion(reader, columns),
    }
}
