//! Writes the records of the commit log.

ghost use Rattle.std.specs.Prelude.{◌≡◌, ◌+◌, ◌<◌, ◌≤◌, ◌^◌, ◌++◌, length, OnOk, OnErr, vec_len};
ghost use Rattle.std.specs.List.{AllByRecursion, flat_map, sum_by};
ghost use Rattle.std.specs.Vec.{vec_capacity};
ghost use Rattle.cas_codec.specs.Fields.{bytes16};
ghost use Rattle.cas_atoms.specs.LogLength.{short_length, atom_length, record_length};
ghost use Rattle.cas_mutations.specs.Spelling.{atom_bytes, place_bytes, times_bytes, atoms_bytes, mutation_bytes, record_bytes};
ghost use Rattle.cas_mutations.specs.Allowed.{HasSpelling, HasRecord};

use crate::writing::put_parts;
use cas_atoms::{Atom, Mutation, length};
use cas_codec::{put_bytes16, put_flag, put_i64, put_u8, put_u16, put_u32, put_u64};
use cas_types::Mem;

// Adds which mutation it is.
fn put_place(out: &mut Vec<u8>, mutation: &Mutation) -> Result<(), Mem>
    ensures written { OnOk result (out.new.items ≡ out.old.items ++ place_bytes mutation.now.table mutation.now.shard mutation.now.number) }
    ensures length { OnOk result (vec_len out.new ≡ vec_len out.old + 11) }
    ensures full { OnErr result (vec_capacity out.old < vec_len out.old + 11) }
    ensures capacity { vec_capacity out.old ≤ vec_capacity out.new }
{
    put_u16(out, mutation.table)?;
    put_u8(out, mutation.shard)?;
    put_u64(out, mutation.number)
}

// Adds when it was made.
fn put_times(out: &mut Vec<u8>, mutation: &Mutation) -> Result<(), Mem>
    ensures written { OnOk result (out.new.items ≡ out.old.items ++ times_bytes mutation.now.drawn mutation.now.at mutation.now.moment) }
    ensures length { OnOk result (vec_len out.new ≡ vec_len out.old + 17) }
    ensures full { OnErr result (vec_capacity out.old < vec_len out.old + 17) }
    ensures capacity { vec_capacity out.old ≤ vec_capacity out.new }
{
    put_flag(out, mutation.drawn)?;
    put_i64(out, mutation.at)?;
    put_i64(out, mutation.moment)
}

// Adds each of the atoms.
#[tactic(auto, using(crate::proofs::RecordLaws::atoms_longer))]
fn put_each(out: &mut Vec<u8>, atoms: &[Atom]) -> Result<(), Mem>
    requires { AllByRecursion HasSpelling atoms.now }
    ensures written { OnOk result (out.new.items ≡ out.old.items ++ flat_map atom_bytes atoms.now) }
    ensures length { OnOk result (vec_len out.new ≡ vec_len out.old + sum_by atom_length atoms.now) }
    ensures full { OnErr result (vec_capacity out.old < vec_len out.old + sum_by atom_length atoms.now) }
    ensures capacity { vec_capacity out.old ≤ vec_capacity out.new }
{
    match atoms {
        [] => Ok(()),
        [first, others @ ..] => {
            put_parts(out, first)?;
            put_each(out, others)
        }
    }
}

// Adds the atoms, after their number.
fn put_atoms(out: &mut Vec<u8>, atoms: &[Atom]) -> Result<(), Mem>
    requires count { length atoms.now < 2 ^ 32 }
    requires spelled { AllByRecursion HasSpelling atoms.now }
    ensures written { OnOk result (out.new.items ≡ out.old.items ++ atoms_bytes atoms.now) }
    ensures length { OnOk result (vec_len out.new ≡ vec_len out.old + (4 + sum_by atom_length atoms.now)) }
    ensures full { OnErr result (vec_capacity out.old < vec_len out.old + (4 + sum_by atom_length atoms.now)) }
    ensures capacity { vec_capacity out.old ≤ vec_capacity out.new }
{
    put_u32(out, atoms.len() as u32)?;
    put_each(out, atoms)
}

// Adds a mutation, which a record holds after its length.
fn put_mutation(out: &mut Vec<u8>, mutation: &Mutation) -> Result<(), Mem>
    requires { HasRecord mutation.now }
    ensures written { OnOk result (out.new.items ≡ out.old.items ++ mutation_bytes mutation.now) }
    ensures length { OnOk result (vec_len out.new ≡ vec_len out.old + (32 + (short_length mutation.now.key + sum_by atom_length mutation.now.atoms))) }
    ensures full { OnErr result (vec_capacity out.old < vec_len out.old + (32 + (short_length mutation.now.key + sum_by atom_length mutation.now.atoms))) }
    ensures capacity { vec_capacity out.old ≤ vec_capacity out.new }
{
    put_place(out, mutation)?;
    put_times(out, mutation)?;
    put_bytes16(out, mutation.key.as_slice())?;
    put_atoms(out, mutation.atoms.as_slice())
}

// The length of a mutation, which its record tells.
#[tactic(auto, using(crate::proofs::RecordLaws::body_long))]
fn mutation_len(mutation: &Mutation) -> u32
    requires { HasRecord mutation.now }
    ensures mutation { result ≡ length (mutation_bytes mutation.now) }
    ensures whole { 4 + result ≡ record_length mutation.now }
{
    (length(mutation) - 4) as u32
}

/// Adds the record of a mutation.
#[tactic(auto, unfolding(cas_codec::specs::Fields::bytes32))]
pub fn put_record(out: &mut Vec<u8>, mutation: &Mutation) -> Result<(), Mem>
    requires { HasRecord mutation.now }
    ensures written { OnOk result (out.new.items ≡ out.old.items ++ record_bytes mutation.now) }
    ensures length { OnOk result (vec_len out.new ≡ vec_len out.old + record_length mutation.now) }
    ensures unchanged { OnErr result (out.new.items ≡ out.old.items) }
    ensures full { OnErr result (vec_capacity out.old < vec_len out.old + record_length mutation.now) }
    ensures capacity { vec_capacity out.old ≤ vec_capacity out.new }
{
    let length = mutation_len(mutation);
    out.reserve(4 + length as usize)?;
    put_u32(out, length)?;
    put_mutation(out, mutation)
}
