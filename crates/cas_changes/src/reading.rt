//! Reads the entries of the manifest.

ghost use Rattle.std.specs.Prelude.{◌≡◌, ◌&&◌, nat_lt, nat_le, Some, IfOk};
ghost use Rattle.cas_codec.specs.Reading.{Gives, checked, u8_at, u16_at, u64_at};
ghost use Rattle.cas_changes.specs.Saying.{is_listed};
ghost use Rattle.cas_changes.specs.Allowed.{IsListable};
ghost use Rattle.cas_changes.specs.Reading.{store_at, definition_at, new_segment_at, drop_segment_at, changing_at};
ghost use Rattle.cas_changes.specs.Reading.{behind_at, add_columns_at, may_be, fields_at, entry_at};

use crate::changes::read_change;
use crate::entry::Entry;
use crate::said::{SEGMENT_LIMIT, Said, is_listable, is_listed};
use cas_codec::{ReadFault, Reader};
use cas_schemas::{read_columns, read_schema};
use cas_types::{COLUMN_LIMIT, SHARD_LIMIT, TableSchema};
use std::alloc::Global;

#[tactic(auto, unfolding(crate::specs::Reading::store_at))]
fn read_store(reader: &mut Reader<'_>) -> Result<Entry, ReadFault>
    ensures { Gives (λ e. e) result reader.new (store_at reader.old) }
{
    let shards = reader.u8_within(1, SHARD_LIMIT)?;
    Ok(Entry::Store { shards })
}

#[tactic(auto, unfolding(crate::specs::Reading::definition_at))]
fn read_definition(alloc: Global, reader: &mut Reader<'_>, said: &Said) -> Result<Entry, ReadFault>
    ensures { Gives (λ e. e) result reader.new (definition_at said.now reader.old) }
{
    let table = read_schema(alloc, reader, &said.tables)?;
    Ok(Entry::Schema(table))
}

#[tactic(auto, unfolding(cas_codec::specs::Reading::checked))]
fn read_new_number(reader: &mut Reader<'_>, last: u64) -> Result<u64, ReadFault>
    ensures { Gives (λ n. n) result reader.new (checked (λ n. nat_lt last n && nat_le n SEGMENT_LIMIT) u64_at reader.old) }
{
    let at = reader.at();
    let number = reader.u64()?;
    if last < number && number <= SEGMENT_LIMIT {
        return Ok(number);
    }
    Err(ReadFault::Bad { at })
}

#[tactic(auto, unfolding(crate::specs::Reading::new_segment_at))]
fn read_new_segment(reader: &mut Reader<'_>, said: &Said) -> Result<Entry, ReadFault>
    ensures { Gives (λ e. e) result reader.new (new_segment_at said.now reader.old) }
{
    let number = read_new_number(reader, said.last_segment)?;
    Ok(Entry::NewSegment { number })
}

#[tactic(auto, unfolding(cas_codec::specs::Reading::checked))]
fn read_listed_number(reader: &mut Reader<'_>, segments: &[u64]) -> Result<u64, ReadFault>
    ensures { Gives (λ n. n) result reader.new (checked (is_listed segments.now) u64_at reader.old) }
{
    let at = reader.at();
    let number = reader.u64()?;
    if is_listed(segments, number) {
        return Ok(number);
    }
    Err(ReadFault::Bad { at })
}

#[tactic(auto, unfolding(crate::specs::Reading::drop_segment_at))]
fn read_drop_segment(reader: &mut Reader<'_>, said: &Said) -> Result<Entry, ReadFault>
    ensures { Gives (λ e. e) result reader.new (drop_segment_at said.now reader.old) }
{
    let number = read_listed_number(reader, &said.segments)?;
    Ok(Entry::DropSegment { number })
}

#[tactic(auto, unfolding(crate::specs::Reading::changing_at))]
fn read_changing(alloc: Global, reader: &mut Reader<'_>, said: &Said) -> Result<Entry, ReadFault>
    ensures { Gives (λ e. e) result reader.new (changing_at said.now reader.old) }
{
    let change = read_change(alloc, reader, said)?;
    Ok(Entry::Change(change))
}

// The columns that a table gets.
fn read_behind(
    alloc: Global,
    reader: &mut Reader<'_>,
    at: u64,
    table: u16,
    found: &TableSchema,
) -> Result<Entry, ReadFault>
    ensures { Gives (λ e. e) result reader.new (behind_at at table reader.old (Some found.now)) }
{
    let limit = (COLUMN_LIMIT as usize).saturating_sub(found.columns.len()) as u16;
    let columns = read_columns(alloc, reader, limit, false, &found.columns)?;
    Ok(Entry::AddColumns { table, columns })
}

#[tactic(auto, unfolding(crate::specs::Reading::add_columns_at))]
fn read_add_columns(alloc: Global, reader: &mut Reader<'_>, said: &Said) -> Result<Entry, ReadFault>
    ensures { Gives (λ e. e) result reader.new (add_columns_at said.now reader.old) }
{
    let at = reader.at();
    let table = reader.u16()?;
    match said.tables.get(table as usize) {
        Some(found) => read_behind(alloc, reader, at, table, found),
        None => Err(ReadFault::Bad { at }),
    }
}

// The kind of an entry.
#[tactic(auto, unfolding(cas_codec::specs::Reading::checked))]
fn read_kind(reader: &mut Reader<'_>, said: &Said) -> Result<u8, ReadFault>
    ensures { Gives (λ n. n) result reader.new (checked (may_be said.now) u8_at reader.old) }
{
    let at = reader.at();
    let kind = reader.u8()?;
    let may_be = if said.shards == 0 {
        kind == 1
    } else {
        2 <= kind && kind <= 6
    };
    if may_be {
        return Ok(kind);
    }
    Err(ReadFault::Bad { at })
}

#[tactic(auto, unfolding(crate::specs::Reading::fields_at))]
fn read_fields(alloc: Global, reader: &mut Reader<'_>, said: &Said) -> Result<Entry, ReadFault>
    ensures { Gives (λ e. e) result reader.new (fields_at said.now reader.old) }
{
    match read_kind(reader, said)? {
        1 => read_store(reader),
        2 => read_definition(alloc, reader, said),
        3 => read_new_segment(reader, said),
        4 => read_drop_segment(reader, said),
        5 => read_changing(alloc, reader, said),
        _ => read_add_columns(alloc, reader, said),
    }
}

/// Reads an entry that may follow, by what is said so far.
#[tactic(auto, unfolding(crate::specs::Reading::entry_at, cas_codec::specs::Reading::checked))]
pub fn read_entry(alloc: Global, reader: &mut Reader<'_>, said: &Said) -> Result<Entry, ReadFault>
    ensures read { Gives (λ e. e) result reader.new (entry_at said.now reader.old) }
    ensures listable { IfOk result (λ e. IsListable said.now e) }
{
    let at = reader.at();
    let entry = read_fields(alloc, reader, said)?;
    if is_listable(said.listed, &entry) {
        return Ok(entry);
    }
    Err(ReadFault::Bad { at })
}
