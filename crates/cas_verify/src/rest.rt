//! Index, filter and info of a file, against what its partitions say.

ghost use Rattle.std.specs.Prelude.{◌≡◌, ◌+◌, ◌≤◌, ◌<◌, ◌^◌, ◌==◌, ℕ, List, Some, Ok, Err, length, map, IfOk, IfSome, IsErrOf, if◌then◌else◌};
ghost use Rattle.std.specs.List.{All};
ghost use Rattle.std.specs.Option.{option_copied};
ghost use Rattle.cas_codec.specs.declared.fault.ReadFault.TheVariants.{Bad};
ghost use Rattle.cas_codec.specs.Reading.{Gives};
ghost use Rattle.cas_disk.specs.Counts.{Counted};
ghost use Rattle.cas_index.specs.Allowed.{HasRooms};
ghost use Rattle.cas_info.specs.declared.info.TheConstants.{FILE_LIMIT, PARTITION_LIMIT};
ghost use Rattle.cas_tables.specs.Files.{first_key, last_key};
ghost use Rattle.cas_sstread.specs.Reading.{filled_at};
ghost use Rattle.cas_sstread.specs.Loading.{Answers};
ghost use Rattle.cas_verify.specs.Fields.{fields_at};
ghost use Rattle.cas_verify.specs.Checking.{filter_for, info_for, fields_for, own_rest_at};
ghost use Rattle.cas_verify.specs.Inner.Ends.{Settles};
ghost use Rattle.cas_verify.specs.Inner.Scans.{key_or};

use crate::faults::fault_in;
use crate::fields::Fields;
use cas_codec::{ReadFault, Reader};
use cas_disk::Sealed;
use cas_facts::Facts;
use cas_filter::Filter;
use cas_index::{FOOTER_LENGTH, PartitionEntry};
use cas_info::TableInfo;
use cas_sstread::{Table, TableFault};
use cas_types::{Bytes, Mem};
use std::alloc::{AllocError, Global};

// The filter of the keys of these partitions.
fn filter_for(alloc: Global, entries: &[PartitionEntry]) -> Result<Filter, Mem>
    requires { length entries.now ≤ PARTITION_LIMIT }
    ensures { IfOk result (λ f. f ≡ filter_for entries.now) }
{
    let mut filter = Filter::new(alloc, entries.len() as u32)?;
    for entry in entries {
        filter.add(entry.key.as_slice());
    }
    Ok(filter)
}

// The key of a partition; no bytes where there is none.
fn key_of(alloc: Global, entry: Option<&PartitionEntry>) -> Result<Bytes, AllocError>
    requires { IfSome (option_copied entry) (λ e. length e.key < 2 ^ 16) }
    ensures key { IfOk result (λ b. b ≡ key_or (option_copied entry.entry)) }
    ensures short { IfOk result (λ b. length b < 2 ^ 16) }
{
    match entry {
        Some(entry) => Bytes::copy_of(alloc, entry.key.as_slice()),
        None => Bytes::copy_of(alloc, &[]),
    }
}

// The first and the last key of these partitions.
fn range(alloc: Global, entries: &[PartitionEntry]) -> Result<(Bytes, Bytes), AllocError>
    requires { All HasRooms entries.now }
    ensures first { IfOk result (λ r. r.0 ≡ first_key (map (λ e. e.key) entries.now)) }
    ensures last { IfOk result (λ r. r.1 ≡ last_key (map (λ e. e.key) entries.now)) }
    ensures short { IfOk result (λ r. (length r.0 < 2 ^ 16) × (length r.1 < 2 ^ 16)) }
{
    let first = key_of(alloc, entries.first())?;
    let last = key_of(alloc, entries.last())?;
    Ok((first, last))
}

// What is told of a file of these partitions, of which that is listed, with these facts.
fn info_for(
    alloc: Global,
    entries: &[PartitionEntry],
    listed: &TableInfo,
    facts: Facts,
) -> Result<TableInfo, AllocError>
    requires few { length entries.now ≤ PARTITION_LIMIT }
    requires rooms { All HasRooms entries.now }
    ensures told { IfOk result (λ i. i ≡ info_for entries.now listed.now facts) }
    ensures short { IfOk result (λ i. (length i.first < 2 ^ 16) × (length i.last < 2 ^ 16)) }
{
    let (first, last) = range(alloc, entries)?;
    Ok(TableInfo {
        number: listed.number,
        bytes: listed.bytes,
        first,
        last,
        least: facts.least,
        greatest: facts.greatest,
        dead: facts.dead,
        level: listed.level,
        keys: entries.len() as u32,
    })
}

// Index, filter and info, one behind another.
fn compare_all(
    fields: &mut Fields<'_>,
    entries: &[PartitionEntry],
    filter: &Filter,
    info: &TableInfo,
) -> Result<(), ReadFault>
    requires few { length entries.now ≤ PARTITION_LIMIT }
    requires rooms { All HasRooms entries.now }
    requires filter { filter.now ≡ filter_for entries.now }
    requires first { length info.now.first < 2 ^ 16 }
    requires last { length info.now.last < 2 ^ 16 }
    ensures { Gives (λ u. u) result fields.new.left (fields_at (fields_for entries.now info.now) fields.old.left) }
{
    fields.index(entries)?;
    fields.filter(filter)?;
    fields.info(info)
}

// Whether nothing is left.
fn check_end(reader: &Reader<'_>) -> Result<(), ReadFault>
    ensures { result ≡ (if length reader.now.bytes == 0 then Ok tt else Err (Bad reader.now.at)) }
{
    if reader.is_empty() {
        return Ok(());
    }
    Err(ReadFault::Bad { at: reader.at() })
}

// Whether these bytes are index, filter and info, and nothing else.
#[tactic(auto, unfolding(cas_sstread::specs::Reading::filled_at))]
fn compare(
    alloc: Global,
    bytes: &[u8],
    at: u64,
    entries: &[PartitionEntry],
    filter: &Filter,
    info: &TableInfo,
) -> Result<(), ReadFault>
    requires room { at + length bytes.now < 2 ^ 64 }
    requires few { length entries.now ≤ PARTITION_LIMIT }
    requires rooms { All HasRooms entries.now }
    requires filter { filter.now ≡ filter_for entries.now }
    requires first { length info.now.first < 2 ^ 16 }
    requires last { length info.now.last < 2 ^ 16 }
    ensures { Settles result (filled_at (fields_at (fields_for entries.now info.now)) (record { bytes = bytes.now; at = at })) }
{
    let mut fields = Fields {
        left: Reader::new(bytes, at),
        field: Vec::new(alloc),
    };
    compare_all(&mut fields, entries, filter, info)?;
    check_end(&fields.left)
}

/// Whether what stands behind the partitions is what these say, whose atoms have these facts.
pub(crate) fn check_rest<F: Sealed>(
    alloc: Global,
    table: &Table<F>,
    entries: &[PartitionEntry],
    facts: Facts,
    tally: &mut F::Tally,
) -> Result<(), TableFault>
    requires long { table.now.info.bytes ≤ FILE_LIMIT }
    requires few { length entries.now ≤ PARTITION_LIMIT }
    requires rooms { All HasRooms entries.now }
    ensures told { (b : List ℕ) → table.now.contents ≡ Some b → Answers (λ u. u) table.now.info.number result
        (own_rest_at entries.now table.now.info facts table.now.kept.end b) }
    ensures count { Counted (F.Tally.number tally.old) (F.Tally.number tally.new) (IsErrOf result TableFault.ReadFault) }
{
    let listed = table.info();
    let at = table.end();
    let long = listed
        .bytes
        .saturating_sub(FOOTER_LENGTH)
        .saturating_sub(at);
    let bytes = table.read(alloc, at, long as usize, tally)?;
    let Ok(filter) = filter_for(alloc, entries) else {
        return Err(TableFault::Mem);
    };
    let info = info_for(alloc, entries, listed, facts)?;
    match compare(alloc, &bytes, at, entries, &filter, &info) {
        Ok(()) => Ok(()),
        Err(fault) => Err(fault_in(table, fault)),
    }
}
