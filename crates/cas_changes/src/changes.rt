//! Reads changes of table files.

ghost use Rattle.std.specs.Prelude.{◌≡◌, length, []};
ghost use Rattle.cas_codec.specs.Reading.{Gives, checked, u8_at, u16_at};
ghost use Rattle.cas_schemas.specs.Each.{each_at};
ghost use Rattle.cas_changes.specs.Allowed.{is_above, may_go, may_come};
ghost use Rattle.cas_changes.specs.Reading.{is_below, where_at, marks_at, gone_at, come_at, counted_at, change_at};

use crate::entry::Change;
use crate::said::{FIRST_DRAWN, Said, has_file};
use cas_codec::{ReadFault, Reader};
use cas_info::{TableInfo, read_info};
use cas_types::{LAST_DRAWN, LAST_SECOND, List, MUTATION_LIMIT, TableSchema};
use std::alloc::Global;

#[tactic(auto, unfolding(crate::specs::Reading::is_below, cas_codec::specs::Reading::checked))]
fn read_table(reader: &mut Reader<'_>, tables: &[TableSchema]) -> Result<u16, ReadFault>
    ensures { Gives (λ n. n) result reader.new (checked (is_below (length tables.now)) u16_at reader.old) }
{
    let at = reader.at();
    let table = reader.u16()?;
    if (table as usize) < tables.len() {
        return Ok(table);
    }
    Err(ReadFault::Bad { at })
}

#[tactic(auto, unfolding(crate::specs::Reading::is_below, cas_codec::specs::Reading::checked))]
fn read_shard(reader: &mut Reader<'_>, shards: u8) -> Result<u8, ReadFault>
    ensures { Gives (λ n. n) result reader.new (checked (is_below shards) u8_at reader.old) }
{
    let at = reader.at();
    let shard = reader.u8()?;
    if shard < shards {
        return Ok(shard);
    }
    Err(ReadFault::Bad { at })
}

#[tactic(auto, unfolding(crate::specs::Reading::where_at))]
fn read_where(reader: &mut Reader<'_>, said: &Said) -> Result<(u16, u8), ReadFault>
    ensures { Gives (λ p. p) result reader.new (where_at said.now reader.old) }
{
    let table = read_table(reader, &said.tables)?;
    let shard = read_shard(reader, said.shards)?;
    Ok((table, shard))
}

// The moment, the frontier and the last drawn timestamp.
#[tactic(auto, unfolding(crate::specs::Reading::marks_at))]
fn read_marks(reader: &mut Reader<'_>, frontier: u64) -> Result<(i64, u64, i64), ReadFault>
    ensures { Gives (λ m. m) result reader.new (marks_at frontier reader.old) }
{
    let moment = reader.i64_within(0, LAST_SECOND)?;
    let frontier = reader.u64_within(frontier, MUTATION_LIMIT)?;
    let drawn = reader.i64_within(FIRST_DRAWN, LAST_DRAWN)?;
    Ok((moment, frontier, drawn))
}

fn is_above(before: &[u64], number: u64) -> bool
    ensures { result ≡ is_above before.now number }
{
    before.iter().all(|one| *one < number)
}

#[tactic(auto, unfolding(crate::specs::Reading::gone_at, cas_codec::specs::Reading::checked))]
fn read_gone(
    reader: &mut Reader<'_>,
    listed: &[TableInfo],
    before: &[u64],
) -> Result<u64, ReadFault>
    ensures { Gives (λ n. n) result reader.new (gone_at listed.now before.now reader.old) }
{
    let at = reader.at();
    let number = reader.u64()?;
    if has_file(listed, number) && is_above(before, number) {
        return Ok(number);
    }
    Err(ReadFault::Bad { at })
}

// So many numbers of files that are removed.
fn read_each_gone(
    alloc: Global,
    reader: &mut Reader<'_>,
    listed: &[TableInfo],
    count: u16,
) -> Result<Vec<u64>, ReadFault>
    ensures { Gives (λ v. v.items) result reader.new (each_at (gone_at listed.now) count [] reader.old) }
{
    let mut numbers = Vec::new(alloc);
    for _done in 0..count {
        match read_gone(reader, listed, &numbers) {
            Ok(number) => numbers.push(number)?,
            Err(fault) => return Err(fault),
        }
    }
    Ok(numbers)
}

#[tactic(auto, unfolding(crate::specs::Reading::counted_at))]
fn read_removed(
    alloc: Global,
    reader: &mut Reader<'_>,
    listed: &[TableInfo],
) -> Result<List<u64>, ReadFault>
    ensures { Gives (λ l. l) result reader.new (counted_at (gone_at listed.now) reader.old) }
{
    let count = reader.u16()?;
    let numbers = read_each_gone(alloc, reader, listed, count)?;
    Ok(List::from_vec(numbers))
}

#[tactic(auto, unfolding(crate::specs::Reading::come_at, cas_codec::specs::Reading::checked))]
fn read_come(
    alloc: Global,
    reader: &mut Reader<'_>,
    said: &Said,
    before: &[TableInfo],
) -> Result<TableInfo, ReadFault>
    ensures { Gives (λ i. i) result reader.new (come_at said.now before.now reader.old) }
{
    let at = reader.at();
    let info = read_info(alloc, reader)?;
    if !said.numbers.has(info.number) && !has_file(before, info.number) {
        return Ok(info);
    }
    Err(ReadFault::Bad { at })
}

// What is told of so many files that are added.
fn read_each_come(
    alloc: Global,
    reader: &mut Reader<'_>,
    said: &Said,
    count: u16,
) -> Result<Vec<TableInfo>, ReadFault>
    ensures { Gives (λ v. v.items) result reader.new (each_at (come_at said.now) count [] reader.old) }
{
    let mut infos = Vec::new(alloc);
    for _done in 0..count {
        match read_come(alloc, reader, said, &infos) {
            Ok(info) => infos.push(info)?,
            Err(fault) => return Err(fault),
        }
    }
    Ok(infos)
}

#[tactic(auto, unfolding(crate::specs::Reading::counted_at))]
fn read_added(
    alloc: Global,
    reader: &mut Reader<'_>,
    said: &Said,
) -> Result<List<TableInfo>, ReadFault>
    ensures { Gives (λ l. l) result reader.new (counted_at (come_at said.now) reader.old) }
{
    let count = reader.u16()?;
    let infos = read_each_come(alloc, reader, said, count)?;
    Ok(List::from_vec(infos))
}

/// Reads a change of table files that may follow.
#[tactic(auto, unfolding(crate::specs::Reading::change_at))]
pub(crate) fn read_change(
    alloc: Global,
    reader: &mut Reader<'_>,
    said: &Said,
) -> Result<Change, ReadFault>
    ensures { Gives (λ c. c) result reader.new (change_at said.now reader.old) }
{
    let (table, shard) = read_where(reader, said)?;
    let (moment, frontier, drawn) = read_marks(reader, said.frontier(table, shard))?;
    let removed = read_removed(alloc, reader, said.listed(table, shard))?;
    let added = read_added(alloc, reader, said)?;
    Ok(Change {
        table,
        shard,
        moment,
        frontier,
        drawn,
        removed,
        added,
    })
}
