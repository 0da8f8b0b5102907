//! Writes atoms.

ghost use Rattle.std.specs.Prelude.{◌≡◌, ◌+◌, ◌-◌, ◌<◌, ◌≤◌, ◌^◌, ◌++◌, min, length, OnOk, OnErr, vec_len};
ghost use Rattle.std.specs.Vec.{vec_capacity};
ghost use Rattle.cas_cell.specs.Cells.{cell_value};
ghost use Rattle.cas_codec.specs.Fields.{u16, bytes16};
ghost use Rattle.cas_atoms.specs.LogLength.{short_length, cell_length, deletion_length, live_length, atom_length};
ghost use Rattle.cas_records.specs.Spelling.{deletion_bytes, cell_bytes};
ghost use Rattle.cas_mutations.specs.Spelling.{atom_bytes};
ghost use Rattle.cas_mutations.specs.Allowed.{HasSpelling};

use cas_atoms::{Atom, ColumnRef};
use cas_cell::{Cell, Deletion, Liveness};
use cas_codec::{put_bytes16, put_u8, put_u16};
use cas_records::{put_cell, put_clustering, put_cut, put_deletion, put_live, values_len};
use cas_types::{Bytes, Mem};

// Adds what is written to a column.
fn put_written(out: &mut Vec<u8>, column: ColumnRef, path: &Bytes, cell: &Cell) -> Result<(), Mem>
    requires path { length path.now < 2 ^ 16 }
    requires value { length (cell_value cell.now) < 2 ^ 32 }
    ensures written { OnOk result (out.new.items ≡ out.old.items ++ (u16 column.number ++ (bytes16 path.now ++ cell_bytes cell.now))) }
    ensures length { OnOk result (vec_len out.new ≡ vec_len out.old + (2 + (short_length path.now + cell_length cell.now))) }
    ensures full { OnErr result (vec_capacity out.old < vec_len out.old + (2 + (short_length path.now + cell_length cell.now))) }
    ensures capacity { vec_capacity out.old ≤ vec_capacity out.new }
{
    put_u16(out, column.number)?;
    put_bytes16(out, path.as_slice())?;
    put_cell(out, cell)
}

// Adds that all of a column is deleted.
fn put_emptied(out: &mut Vec<u8>, column: ColumnRef, deletion: &Deletion) -> Result<(), Mem>
    ensures written { OnOk result (out.new.items ≡ out.old.items ++ (u16 column.number ++ deletion_bytes deletion.now)) }
    ensures length { OnOk result (vec_len out.new ≡ vec_len out.old + (2 + deletion_length)) }
    ensures full { OnErr result (vec_capacity out.old < vec_len out.old + (2 + deletion_length)) }
    ensures capacity { vec_capacity out.old ≤ vec_capacity out.new }
{
    put_u16(out, column.number)?;
    put_deletion(out, deletion)
}

/// Adds an atom; where memory ran out, a part of it may stand there.
pub(crate) fn put_parts(out: &mut Vec<u8>, atom: &Atom) -> Result<(), Mem>
    requires { HasSpelling atom.now }
    ensures written { OnOk result (out.new.items ≡ out.old.items ++ atom_bytes atom.now) }
    ensures length { OnOk result (vec_len out.new ≡ vec_len out.old + atom_length atom.now) }
    ensures full { OnErr result (vec_capacity out.old < vec_len out.old + atom_length atom.now) }
    ensures capacity { vec_capacity out.old ≤ vec_capacity out.new }
{
    match atom {
        Atom::PartitionDeletion(deletion) => {
            put_u8(out, 1)?;
            put_deletion(out, deletion)
        }
        Atom::RangeDeletion(lo, hi, deletion) => {
            put_u8(out, 2)?;
            put_cut(out, lo)?;
            put_cut(out, hi)?;
            put_deletion(out, deletion)
        }
        Atom::RowDeletion(row, deletion) => {
            put_u8(out, 3)?;
            put_clustering(out, row)?;
            put_deletion(out, deletion)
        }
        Atom::CollectionDeletion(row, column, deletion) => {
            put_u8(out, 4)?;
            put_clustering(out, row)?;
            put_emptied(out, *column, deletion)
        }
        Atom::Live(row, live) => {
            put_u8(out, 5)?;
            put_clustering(out, row)?;
            put_live(out, live)
        }
        Atom::Write(row, column, path, cell) => {
            put_u8(out, 6)?;
            put_clustering(out, row)?;
            put_written(out, *column, path, cell)
        }
        Atom::StaticWrite(column, path, cell) => {
            put_u8(out, 7)?;
            put_written(out, *column, path, cell)
        }
        Atom::StaticCollectionDeletion(column, deletion) => {
            put_u8(out, 8)?;
            put_emptied(out, *column, deletion)
        }
    }
}

// The length of what is written to a column.
fn written_len(path: &Bytes, cell: &Cell) -> usize
    ensures { result ≡ min (2 + (short_length path.now + cell_length cell.now)) (2 ^ 64 - 1) }
{
    let rest = match cell {
        Cell::Plain { .. } => 13,
        Cell::Expiring { .. } => 25,
        Cell::Tombstone { .. } => 17,
    };
    path.as_slice()
        .len()
        .saturating_add(cell.value().len())
        .saturating_add(4 + rest)
}

fn live_len(live: &Liveness) -> usize
    ensures { result ≡ live_length live.now }
{
    match live {
        Liveness::Plain { .. } => 9,
        Liveness::Expiring { .. } => 21,
    }
}

// The length of an atom; 2^64-1 where it is greater.
fn atom_len(atom: &Atom) -> usize
    ensures { result ≡ min (atom_length atom.now) (2 ^ 64 - 1) }
{
    match atom {
        Atom::PartitionDeletion(_) => 17,
        Atom::RangeDeletion(lo, hi, _) => values_len(lo.prefix.as_slice())
            .saturating_add(values_len(hi.prefix.as_slice()))
            .saturating_add(19),
        Atom::RowDeletion(row, _) => values_len(row.values.as_slice()).saturating_add(17),
        Atom::CollectionDeletion(row, _, _) => {
            values_len(row.values.as_slice()).saturating_add(19)
        }
        Atom::Live(row, live) => {
            values_len(row.values.as_slice()).saturating_add(1 + live_len(live))
        }
        Atom::Write(row, _, path, cell) => values_len(row.values.as_slice())
            .saturating_add(written_len(path, cell))
            .saturating_add(1),
        Atom::StaticWrite(_, path, cell) => written_len(path, cell).saturating_add(1),
        Atom::StaticCollectionDeletion(_, _) => 19,
    }
}

/// Adds an atom.
pub fn put_atom(out: &mut Vec<u8>, atom: &Atom) -> Result<(), Mem>
    requires { HasSpelling atom.now }
    ensures written { OnOk result (out.new.items ≡ out.old.items ++ atom_bytes atom.now) }
    ensures length { OnOk result (vec_len out.new ≡ vec_len out.old + atom_length atom.now) }
    ensures unchanged { OnErr result (out.new.items ≡ out.old.items) }
    ensures full { OnErr result (vec_capacity out.old < vec_len out.old + atom_length atom.now) }
    ensures capacity { vec_capacity out.old ≤ vec_capacity out.new }
{
    out.reserve(atom_len(atom))?;
    put_parts(out, atom)
}
