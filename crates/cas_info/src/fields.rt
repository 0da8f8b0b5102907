//! What is told of a table file, as bytes.

ghost use Rattle.std.specs.Prelude.{◌≡◌, ◌+◌, ◌<◌, ◌≤◌, ◌^◌, ◌++◌, if◌then◌else◌, is_some, length, OnOk, OnErr, vec_len};
ghost use Rattle.std.specs.Vec.{vec_capacity};
ghost use Rattle.cas_codec.specs.Reading.{Gives};
ghost use Rattle.cas_info.specs.Spelling.{sizes_bytes, range_bytes, times_bytes, rest_bytes, info_bytes};
ghost use Rattle.cas_info.specs.Reading.{sizes_at, range_at, times_of_at, rest_at, info_at};

use crate::info::{FILE_LIMIT, FILE_NUMBER_LIMIT, LAST_LEVEL, PARTITION_LIMIT, TableInfo};
use cas_codec::{ReadFault, Reader, put_bytes16, put_i64, put_maybe_i64, put_u8, put_u32, put_u64};
use cas_records::{read_key, read_timestamp};
use cas_types::{Bytes, Mem};
use std::alloc::Global;

// The number and the length of the file.
#[tactic(auto, unfolding(crate::specs::Reading::sizes_at))]
fn read_sizes(reader: &mut Reader<'_>) -> Result<(u64, u64), ReadFault>
    ensures { Gives (λ s. s) result reader.new (sizes_at reader.old) }
{
    let number = reader.u64_within(1, FILE_NUMBER_LIMIT)?;
    let bytes = reader.u64_within(0, FILE_LIMIT)?;
    Ok((number, bytes))
}

// The first and the last key.
#[tactic(auto, unfolding(crate::specs::Reading::range_at))]
fn read_range(alloc: Global, reader: &mut Reader<'_>) -> Result<(Bytes, Bytes), ReadFault>
    ensures { Gives (λ r. r) result reader.new (range_at reader.old) }
{
    let first = read_key(alloc, reader)?;
    let last = read_key(alloc, reader)?;
    Ok((first, last))
}

// The least and the greatest timestamp, and when the last of it died.
#[tactic(auto, unfolding(crate::specs::Reading::times_of_at))]
fn read_times(reader: &mut Reader<'_>) -> Result<(i64, i64, Option<i64>), ReadFault>
    ensures { Gives (λ t. t) result reader.new (times_of_at reader.old) }
{
    let least = read_timestamp(reader)?;
    let greatest = read_timestamp(reader)?;
    let dead = reader.maybe_i64()?;
    Ok((least, greatest, dead))
}

// The level and the number of keys.
#[tactic(auto, unfolding(crate::specs::Reading::rest_at))]
fn read_rest(reader: &mut Reader<'_>) -> Result<(u8, u32), ReadFault>
    ensures { Gives (λ r. r) result reader.new (rest_at reader.old) }
{
    let level = reader.u8_within(0, LAST_LEVEL)?;
    let keys = reader.u32_within(1, PARTITION_LIMIT)?;
    Ok((level, keys))
}

/// Reads what is told of a table file.
#[tactic(auto, unfolding(crate::specs::Reading::info_at))]
pub fn read_info(alloc: Global, reader: &mut Reader<'_>) -> Result<TableInfo, ReadFault>
    ensures { Gives (λ i. i) result reader.new (info_at reader.old) }
{
    let (number, bytes) = read_sizes(reader)?;
    let (first, last) = read_range(alloc, reader)?;
    let (least, greatest, dead) = read_times(reader)?;
    let (level, keys) = read_rest(reader)?;
    Ok(TableInfo {
        number,
        bytes,
        first,
        last,
        least,
        greatest,
        dead,
        level,
        keys,
    })
}

fn put_sizes(out: &mut Vec<u8>, info: &TableInfo) -> Result<(), Mem>
    ensures written { OnOk result (out.new.items ≡ out.old.items ++ sizes_bytes info.now.number info.now.bytes) }
    ensures length { OnOk result (vec_len out.new ≡ vec_len out.old + 16) }
    ensures full { OnErr result (vec_capacity out.old < vec_len out.old + 16) }
    ensures capacity { vec_capacity out.old ≤ vec_capacity out.new }
{
    put_u64(out, info.number)?;
    put_u64(out, info.bytes)
}

fn put_range(out: &mut Vec<u8>, info: &TableInfo) -> Result<(), Mem>
    requires first { length info.now.first < 2 ^ 16 }
    requires last { length info.now.last < 2 ^ 16 }
    ensures written { OnOk result (out.new.items ≡ out.old.items ++ range_bytes info.now.first info.now.last) }
    ensures length { OnOk result (vec_len out.new ≡ vec_len out.old + (4 + (length info.now.first + length info.now.last))) }
    ensures full { OnErr result (vec_capacity out.old < vec_len out.old + (4 + (length info.now.first + length info.now.last))) }
    ensures capacity { vec_capacity out.old ≤ vec_capacity out.new }
{
    put_bytes16(out, info.first.as_slice())?;
    put_bytes16(out, info.last.as_slice())
}

fn put_times(out: &mut Vec<u8>, info: &TableInfo) -> Result<(), Mem>
    ensures written { OnOk result (out.new.items ≡ out.old.items ++ times_bytes info.now.least info.now.greatest info.now.dead) }
    ensures length { OnOk result (vec_len out.new ≡ vec_len out.old + (16 + (if is_some info.now.dead then 9 else 1))) }
    ensures full { OnErr result (vec_capacity out.old < vec_len out.old + (16 + (if is_some info.now.dead then 9 else 1))) }
    ensures capacity { vec_capacity out.old ≤ vec_capacity out.new }
{
    put_i64(out, info.least)?;
    put_i64(out, info.greatest)?;
    put_maybe_i64(out, info.dead)
}

fn put_rest(out: &mut Vec<u8>, info: &TableInfo) -> Result<(), Mem>
    ensures written { OnOk result (out.new.items ≡ out.old.items ++ rest_bytes info.now.level info.now.keys) }
    ensures length { OnOk result (vec_len out.new ≡ vec_len out.old + 5) }
    ensures full { OnErr result (vec_capacity out.old < vec_len out.old + 5) }
    ensures capacity { vec_capacity out.old ≤ vec_capacity out.new }
{
    put_u8(out, info.level)?;
    put_u32(out, info.keys)
}

/// The most bytes that an info has beside its keys.
const BESIDE_KEYS: usize = 50;

/// Adds what is told of a table file. Room is made for 50 bytes beside the two keys.
pub fn put_info(out: &mut Vec<u8>, info: &TableInfo) -> Result<(), Mem>
    requires first { length info.now.first < 2 ^ 16 }
    requires last { length info.now.last < 2 ^ 16 }
    ensures written { OnOk result (out.new.items ≡ out.old.items ++ info_bytes info.now) }
    ensures unchanged { OnErr result (out.new.items ≡ out.old.items) }
    ensures full { OnErr result (vec_capacity out.old < vec_len out.old + (50 + (length info.now.first + length info.now.last))) }
    ensures capacity { vec_capacity out.old ≤ vec_capacity out.new }
{
    out.reserve(BESIDE_KEYS + info.first.as_slice().len() + info.last.as_slice().len())?;
    put_sizes(out, info)?;
    put_range(out, info)?;
    put_times(out, info)?;
    put_rest(out, info)
}
