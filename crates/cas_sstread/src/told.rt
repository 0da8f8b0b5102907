//! Reads what a table file tells of itself: each field is to be as it is listed, and the keys are to
//! be those of the index.

ghost use Rattle.std.specs.Prelude.{◌≡◌, ◌==◌, ◌&&◌, ◌<◌, ◌^◌, length, slice_get, None};
ghost use Rattle.std.specs.List.{last_or};
ghost use Rattle.std.specs.Option.{option_copied};
ghost use Rattle.cas_codec.specs.Reading.{Gives, checked, maybe_at, i64_at, u32_at};
ghost use Rattle.cas_sstread.specs.Reading.{filled_at, own_sizes_at, is_key_of, own_key_at, own_range_at, is_second, own_times_at, own_rest_at, own_info_at};
ghost use Rattle.cas_sstread.specs.Inner.Ends.{Ends};

use crate::fields::{check_end, first, last};
use cas_codec::{ReadFault, Reader};
use cas_index::PartitionEntry;
use cas_info::TableInfo;
use cas_types::compare_bytes;

// The number and the length of the file.
#[tactic(auto, unfolding(crate::specs::Reading::own_sizes_at))]
fn read_sizes(reader: &mut Reader<'_>, info: &TableInfo) -> Result<(), ReadFault>
    ensures { Gives (λ u. u) result reader.new (own_sizes_at info.now reader.old) }
{
    reader.u64_within(info.number, info.number)?;
    reader.u64_within(info.bytes, info.bytes)?;
    Ok(())
}

// Whether a key is the listed one, and that of the partition.
#[tactic(auto, unfolding(crate::specs::Reading::is_key_of))]
fn is_key_of(listed: &[u8], partition: Option<&PartitionEntry>, key: &[u8]) -> bool
    ensures { result ≡ is_key_of listed.now (option_copied partition.entry) key.now }
{
    match partition {
        Some(partition) => {
            compare_bytes(key, listed).is_eq()
                && compare_bytes(key, partition.key.as_slice()).is_eq()
        }
        None => false,
    }
}

// A key that is the listed one, and that of the partition.
#[tactic(auto, unfolding(cas_codec::specs::Reading::checked, crate::specs::Reading::own_key_at))]
fn read_key_of(
    reader: &mut Reader<'_>,
    listed: &[u8],
    partition: Option<&PartitionEntry>,
) -> Result<(), ReadFault>
    ensures { Gives (λ u. u) result reader.new (own_key_at listed.now (option_copied partition.entry) reader.old) }
{
    let at = reader.at();
    let key = reader.bytes16()?;
    if is_key_of(listed, partition, key) {
        return Ok(());
    }
    Err(ReadFault::Bad { at })
}

// The first and the last key.
#[tactic(auto, unfolding(crate::specs::Reading::own_range_at))]
fn read_range(
    reader: &mut Reader<'_>,
    info: &TableInfo,
    partitions: &[PartitionEntry],
) -> Result<(), ReadFault>
    ensures { Gives (λ u. u) result reader.new (own_range_at info.now partitions.now reader.old) }
{
    read_key_of(reader, info.first.as_slice(), first(partitions))?;
    read_key_of(reader, info.last.as_slice(), last(partitions))?;
    Ok(())
}

// Whether the second is the listed one.
#[tactic(auto, unfolding(crate::specs::Reading::is_second))]
fn is_second(listed: Option<i64>, second: Option<i64>) -> bool
    ensures { result ≡ is_second listed second }
{
    match (listed, second) {
        (Some(listed), Some(second)) => listed <= second && second <= listed,
        (None, None) => true,
        _ => false,
    }
}

// When the last of it died.
#[tactic(auto, unfolding(cas_codec::specs::Reading::checked))]
fn read_second(reader: &mut Reader<'_>, listed: Option<i64>) -> Result<Option<i64>, ReadFault>
    ensures { Gives (λ s. s) result reader.new (checked (is_second listed) (maybe_at i64_at) reader.old) }
{
    let at = reader.at();
    let second = reader.maybe_i64()?;
    if is_second(listed, second) {
        return Ok(second);
    }
    Err(ReadFault::Bad { at })
}

// The timestamps, and when the last of it died.
#[tactic(auto, unfolding(crate::specs::Reading::own_times_at))]
fn read_times(reader: &mut Reader<'_>, info: &TableInfo) -> Result<(), ReadFault>
    ensures { Gives (λ u. u) result reader.new (own_times_at info.now reader.old) }
{
    reader.i64_within(info.least, info.least)?;
    reader.i64_within(info.greatest, info.greatest)?;
    read_second(reader, info.dead)?;
    Ok(())
}

// How many keys there are.
#[tactic(auto, unfolding(cas_codec::specs::Reading::checked))]
fn read_count(reader: &mut Reader<'_>, listed: u32, count: usize) -> Result<u32, ReadFault>
    ensures { Gives (λ n. n) result reader.new (checked (λ n. (n == listed) && (n == count)) u32_at reader.old) }
{
    let at = reader.at();
    let keys = reader.u32()?;
    if keys == listed && keys as usize == count {
        return Ok(keys);
    }
    Err(ReadFault::Bad { at })
}

// The level, and the number of keys.
#[tactic(auto, unfolding(crate::specs::Reading::own_rest_at))]
fn read_rest(reader: &mut Reader<'_>, info: &TableInfo, count: usize) -> Result<(), ReadFault>
    ensures { Gives (λ u. u) result reader.new (own_rest_at info.now count reader.old) }
{
    reader.u8_within(info.level, info.level)?;
    read_count(reader, info.keys, count)?;
    Ok(())
}

// All of it.
#[tactic(auto, unfolding(crate::specs::Reading::own_info_at))]
fn read_all(
    reader: &mut Reader<'_>,
    info: &TableInfo,
    partitions: &[PartitionEntry],
) -> Result<(), ReadFault>
    ensures { Gives (λ u. u) result reader.new (own_info_at info.now partitions.now reader.old) }
{
    read_sizes(reader, info)?;
    read_range(reader, info, partitions)?;
    read_times(reader, info)?;
    read_rest(reader, info, partitions.len())?;
    Ok(())
}

/// Whether what a file tells of itself at that place is what is listed, with the keys of the index.
#[tactic(auto, unfolding(crate::specs::Reading::filled_at))]
pub(crate) fn check_told(
    bytes: &[u8],
    at: u64,
    info: &TableInfo,
    partitions: &[PartitionEntry],
) -> Result<(), ReadFault>
    requires long { length bytes.now < 2 ^ 62 }
    requires place { at < 2 ^ 62 }
    ensures { Ends (λ u. u) result (filled_at (own_info_at info.now partitions.now) (record { bytes = bytes.now; at = at })) }
{
    let mut reader = Reader::new(bytes, at);
    read_all(&mut reader, info, partitions)?;
    check_end(&reader)
}
