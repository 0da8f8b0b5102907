//! What of a shard's history a SELECT reads.

ghost use Rattle.std.specs.Prelude.{◌≡◌, ◌++◌, filter, OnOk};
ghost use Rattle.cas_laws.specs.Inside.{is_read};
ghost use Rattle.cas_shard.specs.Entries.{atoms_if, first, is_of_partition};

use crate::entry::Entry;
use cas_atoms::{Atom, Mutation, Query};
use cas_bounds::{Slice, inside};
use cas_types::{Bytes, Mem, compare_bytes};
use std::cmp::Ordering;

// Whether a query in the slice reads the atom.
fn is_read(slice: &Slice, atom: &Atom) -> bool
    ensures { result ≡ is_read slice.now atom.now }
{
    match atom {
        Atom::RowDeletion(row, _) => inside(row, slice),
        Atom::CollectionDeletion(row, _, _) => inside(row, slice),
        Atom::Live(row, _) => inside(row, slice),
        Atom::Write(row, _, _, _) => inside(row, slice),
        _ => true,
    }
}

fn append_atoms(into: &mut Vec<Atom>, slice: &Slice, atoms: &[Atom]) -> Result<(), Mem>
    ensures { OnOk result (into.new.items ≡ into.old.items ++ filter (is_read slice.now) atoms.now) }
{
    for atom in atoms {
        if is_read(slice, atom) {
            into.push(atom.copied()?)?;
        }
    }
    Ok(())
}

fn is_of_partition(table: u16, key: &Bytes, mutation: &Mutation) -> bool
    ensures { result ≡ is_of_partition table key.now mutation.now }
{
    mutation.table == table
        && compare_bytes(mutation.key.as_slice(), key.as_slice()) == Ordering::Equal
}

fn append_if(into: &mut Vec<Atom>, front: u64, query: &Query, entry: &Entry) -> Result<(), Mem>
    ensures { OnOk result (into.new.items ≡
        into.old.items ++ filter (is_read query.now.slice) (atoms_if front query.now.table query.now.key entry.now)) }
{
    match entry {
        Entry::Wrote { mutation, .. } => {
            if mutation.number <= front && is_of_partition(query.table, &query.key, mutation) {
                append_atoms(into, &query.slice, mutation.atoms.as_slice())
            } else {
                Ok(())
            }
        }
    }
}

/// Appends what the query reads of its partition's mutations that are numbered up to the front: all
/// their atoms but those of single rows outside the slice. It looks at each entry once, and at each
/// atom of the partition, and copies no other.
#[tactic(auto, using(crate::proofs::Numbers::read_more), unfolding(crate::specs::Entries::first))]
pub fn append_read(
    into: &mut Vec<Atom>,
    front: u64,
    query: &Query,
    entries: &[Entry],
) -> Result<(), Mem>
    ensures { OnOk result (into.new.items ≡
        into.old.items ++ filter (is_read query.now.slice) (first front query.now.table query.now.key entries.now)) }
{
    for entry in entries {
        append_if(into, front, query, entry)?;
    }
    Ok(())
}
