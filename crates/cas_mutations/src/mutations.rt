//! Reads mutations, which are the records of the commit log.

ghost use Rattle.std.specs.Prelude.{◌≡◌, IfOk, nat_lt};
ghost use Rattle.cas_codec.specs.Reading.{Gives, checked, u8_at, times_at};
ghost use Rattle.cas_mutations.specs.Reading.{table_at, place_at, stamp_at, times_of_at, atom_at, atoms_at, mutation_at, record_at};

use crate::atoms::read_atom;
use cas_atoms::{Atom, Mutation};
use cas_bounds::{RowOrder, clustering_order};
use cas_codec::{ReadFault, Reader};
use cas_records::{read_key, read_timestamp};
use cas_types::{Column, LAST_DRAWN, LAST_SECOND, List, MUTATION_LIMIT, TableSchema};
use std::alloc::Global;

// For so many atoms there is room at once, whatever number of them is told.
const AT_ONCE: u32 = 16;

// The number of a table, and the table.
#[tactic(auto, unfolding(crate::specs::Reading::table_at))]
fn read_table<'a>(
    reader: &mut Reader<'_>,
    tables: &'a [TableSchema],
) -> Result<&'a TableSchema, ReadFault>
    ensures { Gives (λ t. t.now) result reader.new (table_at tables.now reader.old) }
{
    let at = reader.at();
    let number = reader.u16()?;
    match tables.get(number as usize) {
        Some(table) => {
            if table.number == number {
                Ok(table)
            } else {
                Err(ReadFault::Bad { at })
            }
        }
        None => Err(ReadFault::Bad { at }),
    }
}

// A shard, of so many.
#[tactic(auto, unfolding(cas_codec::specs::Reading::checked))]
fn read_shard(reader: &mut Reader<'_>, shards: u8) -> Result<u8, ReadFault>
    ensures { Gives (λ s. s) result reader.new (checked (λ s. nat_lt s shards) u8_at reader.old) }
{
    let at = reader.at();
    let shard = reader.u8()?;
    if shard < shards {
        return Ok(shard);
    }
    Err(ReadFault::Bad { at })
}

// Which mutation it is: its table, its shard, and its number there.
#[tactic(auto, unfolding(crate::specs::Reading::place_at))]
fn read_place<'a>(
    reader: &mut Reader<'_>,
    tables: &'a [TableSchema],
    shards: u8,
) -> Result<(&'a TableSchema, u8, u64), ReadFault>
    ensures { Gives (λ p. (p.0.now, p.1, p.2)) result reader.new (place_at tables.now shards reader.old) }
{
    let table = read_table(reader, tables)?;
    let shard = read_shard(reader, shards)?;
    let number = reader.u64_within(1, MUTATION_LIMIT)?;
    Ok((table, shard, number))
}

fn read_stamp(reader: &mut Reader<'_>, drawn: bool) -> Result<i64, ReadFault>
    ensures { Gives (λ at. at) result reader.new (stamp_at drawn reader.old) }
{
    match drawn {
        true => reader.i64_within(0, LAST_DRAWN),
        false => read_timestamp(reader),
    }
}

// When it was made: whether its timestamp was drawn, the timestamp and the moment.
#[tactic(auto, unfolding(crate::specs::Reading::times_of_at))]
fn read_times(reader: &mut Reader<'_>) -> Result<(bool, i64, i64), ReadFault>
    ensures { Gives (λ t. t) result reader.new (times_of_at reader.old) }
{
    let drawn = reader.flag()?;
    let at = read_stamp(reader, drawn)?;
    let moment = reader.i64_within(0, LAST_SECOND)?;
    Ok((drawn, at, moment))
}

// So many atoms.
fn read_each(
    alloc: Global,
    reader: &mut Reader<'_>,
    order: &RowOrder,
    columns: &[Column],
    count: u32,
) -> Result<Vec<Atom>, ReadFault>
    ensures { Gives (λ v. v.items) result reader.new (times_at count (atom_at order.now columns.now) reader.old) }
{
    let mut atoms = Vec::with_capacity(alloc, count.min(AT_ONCE) as usize)?;
    for _done in 0..count {
        match read_atom(alloc, reader, order, columns) {
            Ok(atom) => atoms.push(atom)?,
            Err(fault) => return Err(fault),
        }
    }
    Ok(atoms)
}

#[tactic(auto, unfolding(crate::specs::Reading::atoms_at))]
fn read_atoms(
    alloc: Global,
    reader: &mut Reader<'_>,
    columns: &[Column],
) -> Result<List<Atom>, ReadFault>
    ensures { Gives (λ l. l) result reader.new (atoms_at columns.now reader.old) }
{
    let order = clustering_order(alloc, columns)?;
    let count = reader.u32()?;
    let atoms = read_each(alloc, reader, &order, columns, count)?;
    Ok(List::from_vec(atoms))
}

// A mutation of one of the tables, in a store of so many shards.
#[tactic(auto, unfolding(crate::specs::Reading::mutation_at))]
fn read_mutation(
    alloc: Global,
    reader: &mut Reader<'_>,
    tables: &[TableSchema],
    shards: u8,
) -> Result<Mutation, ReadFault>
    ensures { Gives (λ m. m) result reader.new (mutation_at tables.now shards reader.old) }
{
    let (table, shard, number) = read_place(reader, tables, shards)?;
    let (drawn, at, moment) = read_times(reader)?;
    let key = read_key(alloc, reader)?;
    let atoms = read_atoms(alloc, reader, table.columns.as_slice())?;
    Ok(Mutation {
        table: table.number,
        shard,
        number,
        drawn,
        at,
        moment,
        key,
        atoms,
    })
}

/// Reads a record of the commit log: a mutation of one of the tables, which stand in the order of
/// their numbers, in a store of so many shards.
#[tactic(auto, unfolding(crate::specs::Reading::record_at, cas_codec::specs::Reading::enclosed_at))]
pub fn read_record(
    alloc: Global,
    reader: &mut Reader<'_>,
    tables: &[TableSchema],
    shards: u8,
) -> Result<Mutation, ReadFault>
    ensures { Gives (λ m. m) result reader.new (record_at tables.now shards reader.old) }
{
    let mut body = reader.part32()?;
    let mutation = read_mutation(alloc, &mut body, tables, shards)?;
    if !body.is_empty() {
        return Err(ReadFault::Bad { at: body.at() });
    }
    Ok(mutation)
}
