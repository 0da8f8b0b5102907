//! How long a mutation's record in the commit log is.

ghost use Rattle.std.specs.Prelude.{◌≡◌, ◌^◌, ◌-◌, ◌+◌, min};
ghost use Rattle.std.specs.List.{sum_by};
ghost use Rattle.cas_atoms.specs.LogLength.{short_length, values_length, cut_length, cell_length, live_length, atom_length, record_length};

use crate::atom::{Atom, Mutation};
use cas_bounds::Cut;
use cas_cell::{Cell, Liveness};
use cas_types::Bytes;

/// The length of a deletion's fields.
const DELETION: u64 = 16;

fn short(bytes: &[u8]) -> u64
    ensures { result ≡ min (short_length bytes.now) (2 ^ 64 - 1) }
{
    (bytes.len() as u64).saturating_add(2)
}

fn values_len(values: &[Bytes]) -> u64
    ensures { result ≡ min (values_length values.now) (2 ^ 64 - 1) }
{
    let mut total: u64 = 1;
    for value in values {
        total = total.saturating_add(short(value.as_slice()));
    }
    total
}

fn cut(c: &Cut) -> u64
    ensures { result ≡ min (cut_length c.now) (2 ^ 64 - 1) }
{
    values_len(c.prefix.as_slice()).saturating_add(1)
}

fn cell(c: &Cell) -> u64
    ensures { result ≡ min (cell_length c.now) (2 ^ 64 - 1) }
{
    match c {
        Cell::Plain { value, .. } => (value.as_slice().len() as u64).saturating_add(13),
        Cell::Expiring { value, .. } => (value.as_slice().len() as u64).saturating_add(25),
        Cell::Tombstone { .. } => 17,
    }
}

fn live(l: &Liveness) -> u64
    ensures { result ≡ live_length l.now }
{
    match l {
        Liveness::Plain { .. } => 9,
        Liveness::Expiring { .. } => 21,
    }
}

fn atom(a: &Atom) -> u64
    ensures { result ≡ min (atom_length a.now) (2 ^ 64 - 1) }
{
    match a {
        Atom::PartitionDeletion(_) => 1 + DELETION,
        Atom::RangeDeletion(lo, hi, _) => cut(lo)
            .saturating_add(cut(hi))
            .saturating_add(1 + DELETION),
        Atom::RowDeletion(c, _) => values_len(c.values.as_slice()).saturating_add(1 + DELETION),
        Atom::CollectionDeletion(c, _, _) => {
            values_len(c.values.as_slice()).saturating_add(3 + DELETION)
        }
        Atom::Live(c, l) => values_len(c.values.as_slice()).saturating_add(1 + live(l)),
        Atom::Write(c, _, p, v) => values_len(c.values.as_slice())
            .saturating_add(short(p.as_slice()))
            .saturating_add(cell(v))
            .saturating_add(3),
        Atom::StaticWrite(_, p, v) => short(p.as_slice())
            .saturating_add(cell(v))
            .saturating_add(3),
        Atom::StaticCollectionDeletion(_, _) => 3 + DELETION,
    }
}

fn atoms_len(atoms: &[Atom]) -> u64
    ensures { result ≡ min (sum_by atom_length atoms.now) (2 ^ 64 - 1) }
{
    let mut total: u64 = 0;
    for a in atoms {
        total = total.saturating_add(atom(a));
    }
    total
}

/// The length in bytes of the mutation's record in the commit log, with the four bytes that tell
/// it; 2^64-1 where it is greater.
pub fn length(mutation: &Mutation) -> u64
    ensures { result ≡ min (record_length mutation.now) (2 ^ 64 - 1) }
{
    short(mutation.key.as_slice())
        .saturating_add(36)
        .saturating_add(atoms_len(mutation.atoms.as_slice()))
}
