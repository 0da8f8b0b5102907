//! Writes the entries of the manifest.

ghost use Rattle.std.specs.Prelude.{◌≡◌, ◌<◌, ◌^◌, ◌++◌, length, OnOk};
ghost use Rattle.std.specs.List.{AllByRecursion, flat_map};
ghost use Rattle.cas_codec.specs.Fields.{u64};
ghost use Rattle.cas_info.specs.Spelling.{info_bytes};
ghost use Rattle.cas_changes.specs.Spelling.{where_bytes, marks_bytes, removed_bytes, added_bytes, change_bytes, entry_bytes};
ghost use Rattle.cas_changes.specs.Allowed.{HasSpelling};

use crate::entry::{Change, Entry};
use cas_codec::{put_i64, put_u8, put_u16, put_u64};
use cas_info::{TableInfo, put_info};
use cas_schemas::{put_columns, put_schema};
use cas_types::Mem;

fn put_where(out: &mut Vec<u8>, change: &Change) -> Result<(), Mem>
    ensures { OnOk result (out.new.items ≡ out.old.items ++ where_bytes change.now.table change.now.shard) }
{
    put_u16(out, change.table)?;
    put_u8(out, change.shard)
}

fn put_marks(out: &mut Vec<u8>, change: &Change) -> Result<(), Mem>
    ensures { OnOk result (out.new.items ≡ out.old.items ++ marks_bytes change.now.moment change.now.frontier change.now.drawn) }
{
    put_i64(out, change.moment)?;
    put_u64(out, change.frontier)?;
    put_i64(out, change.drawn)
}

fn put_numbers(out: &mut Vec<u8>, numbers: &[u64]) -> Result<(), Mem>
    ensures { OnOk result (out.new.items ≡ out.old.items ++ flat_map u64 numbers.now) }
{
    match numbers {
        [] => Ok(()),
        [first, others @ ..] => {
            put_u64(out, *first)?;
            put_numbers(out, others)
        }
    }
}

fn put_removed(out: &mut Vec<u8>, numbers: &[u64]) -> Result<(), Mem>
    requires { length numbers.now < 2 ^ 16 }
    ensures { OnOk result (out.new.items ≡ out.old.items ++ removed_bytes numbers.now) }
{
    put_u16(out, numbers.len() as u16)?;
    put_numbers(out, numbers)
}

fn put_infos(out: &mut Vec<u8>, infos: &[TableInfo]) -> Result<(), Mem>
    requires { AllByRecursion (λ i. (length i.first < 2 ^ 16) × (length i.last < 2 ^ 16)) infos.now }
    ensures { OnOk result (out.new.items ≡ out.old.items ++ flat_map info_bytes infos.now) }
{
    match infos {
        [] => Ok(()),
        [first, others @ ..] => {
            put_info(out, first)?;
            put_infos(out, others)
        }
    }
}

fn put_added(out: &mut Vec<u8>, infos: &[TableInfo]) -> Result<(), Mem>
    requires count { length infos.now < 2 ^ 16 }
    requires short { AllByRecursion (λ i. (length i.first < 2 ^ 16) × (length i.last < 2 ^ 16)) infos.now }
    ensures { OnOk result (out.new.items ≡ out.old.items ++ added_bytes infos.now) }
{
    put_u16(out, infos.len() as u16)?;
    put_infos(out, infos)
}

fn put_change(out: &mut Vec<u8>, change: &Change) -> Result<(), Mem>
    requires removed { length change.now.removed < 2 ^ 16 }
    requires added { length change.now.added < 2 ^ 16 }
    requires short { AllByRecursion (λ i. (length i.first < 2 ^ 16) × (length i.last < 2 ^ 16)) change.now.added }
    ensures { OnOk result (out.new.items ≡ out.old.items ++ change_bytes change.now) }
{
    put_where(out, change)?;
    put_marks(out, change)?;
    put_removed(out, change.removed.as_slice())?;
    put_added(out, change.added.as_slice())
}

/// Adds an entry; where memory ran out, a part of it may stand there.
pub fn put_entry(out: &mut Vec<u8>, entry: &Entry) -> Result<(), Mem>
    requires { HasSpelling entry.now }
    ensures { OnOk result (out.new.items ≡ out.old.items ++ entry_bytes entry.now) }
{
    match entry {
        Entry::Store { shards } => {
            put_u8(out, 1)?;
            put_u8(out, *shards)
        }
        Entry::Schema(table) => {
            put_u8(out, 2)?;
            put_schema(out, table)
        }
        Entry::NewSegment { number } => {
            put_u8(out, 3)?;
            put_u64(out, *number)
        }
        Entry::DropSegment { number } => {
            put_u8(out, 4)?;
            put_u64(out, *number)
        }
        Entry::Change(change) => {
            put_u8(out, 5)?;
            put_change(out, change)
        }
        Entry::AddColumns { table, columns } => {
            put_u8(out, 6)?;
            put_u16(out, *table)?;
            put_columns(out, columns.as_slice())
        }
    }
}
