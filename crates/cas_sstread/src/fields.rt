//! Reads the fields of a table file's parts, each from bytes that are in memory.

ghost use Rattle.std.specs.Prelude.{◌≡◌, ◌<◌, ◌≤◌, ◌^◌, ◌==◌, true, length, slice_get, None, Ok, Err, IfOk, if◌then◌else◌};
ghost use Rattle.std.specs.List.{last_or};
ghost use Rattle.std.specs.Option.{option_copied};
ghost use Rattle.cas_codec.specs.declared.fault.ReadFault.TheVariants.{Bad};
ghost use Rattle.cas_filter.specs.Filters.{bits_for};
ghost use Rattle.cas_index.specs.Entries.{block_place, last_place};
ghost use Rattle.cas_tables.specs.Reading.{header_of_at};
ghost use Rattle.cas_sstread.specs.Reading.{filled_at, in_order, last_footer_at, own_place, stand_before, own_index_at, own_filter_at};
ghost use Rattle.cas_sstread.specs.Inner.Ends.{Ends};

use cas_bounds::RowOrder;
use cas_codec::{ReadFault, Reader};
use cas_filter::{Filter, KEY_BITS, LEAST_BITS, read_filter};
use cas_fragments::Version;
use cas_index::{BlockEntry, Footer, PartitionEntry, PartitionIndex, read_footer, read_index};
use cas_tables::{HEADER_LENGTH, read_header_of};
use std::alloc::Global;

/// Whether a part is read to its end.
pub(crate) fn check_end(reader: &Reader<'_>) -> Result<(), ReadFault>
    ensures { result ≡ (if length reader.now.bytes == 0 then Ok tt else Err (Bad reader.now.at)) }
{
    if reader.is_empty() {
        return Ok(());
    }
    Err(ReadFault::Bad { at: reader.at() })
}

/// The version of a file that begins with the header of this one.
#[tactic(auto, unfolding(crate::specs::Reading::filled_at))]
pub(crate) fn header_in(
    bytes: &[u8],
    table: u16,
    shard: u8,
    number: u64,
) -> Result<Version, ReadFault>
    requires { length bytes.now < 2 ^ 63 }
    ensures { Ends (λ v. v) result (filled_at (header_of_at table shard number) (record { bytes = bytes.now; at = 0 })) }
{
    let mut reader = Reader::new(bytes, 0);
    let version = read_header_of(&mut reader, table, shard, number)?;
    check_end(&reader)?;
    Ok(version)
}

// The footer, if its places lie in order between the header and it.
#[tactic(auto, unfolding(crate::specs::Reading::in_order))]
fn check_order(end: u64, footer: Footer) -> Result<Footer, ReadFault>
    requires { end < 2 ^ 63 }
    ensures checked { result ≡ in_order end footer }
    ensures order { IfOk result (λ f. (f.index ≤ f.filter) × (f.filter ≤ f.info) × (f.info ≤ end)) }
{
    if !(HEADER_LENGTH <= footer.index && footer.index <= end) {
        return Err(ReadFault::Bad { at: end });
    }
    if !(footer.index <= footer.filter && footer.filter <= end) {
        return Err(ReadFault::Bad { at: end + 8 });
    }
    if !(footer.filter <= footer.info && footer.info <= end) {
        return Err(ReadFault::Bad { at: end + 16 });
    }
    Ok(footer)
}

/// The footer that ends a file.
#[tactic(auto, unfolding(crate::specs::Reading::last_footer_at, crate::specs::Reading::filled_at))]
pub(crate) fn footer_in(bytes: &[u8], at: u64) -> Result<Footer, ReadFault>
    requires long { length bytes.now < 2 ^ 62 }
    requires place { at < 2 ^ 62 }
    ensures footer { Ends (λ f. f) result (last_footer_at (record { bytes = bytes.now; at = at })) }
    ensures in_order { IfOk result (λ f. (f.index ≤ f.filter) × (f.filter ≤ f.info) × (f.info ≤ at)) }
{
    let mut reader = Reader::new(bytes, at);
    let footer = read_footer(&mut reader)?;
    check_end(&reader)?;
    check_order(at, footer)
}

/// The first of them, if there is one.
pub(crate) fn first<T>(items: &[T]) -> Option<&T>
    ensures { option_copied result ≡ slice_get items.now 0 }
{
    items.first()
}

// The place of the first partition.
fn first_place(partitions: &[PartitionEntry]) -> u64
    ensures { result ≡ own_place (slice_get partitions.now 0) }
{
    match first(partitions) {
        Some(partition) => partition.place,
        None => 0,
    }
}

/// The last of them, if there is one.
pub(crate) fn last<T>(items: &[T]) -> Option<&T>
    ensures { option_copied result ≡ last_or None items.now }
{
    items.last()
}

// The place of the last of these blocks, or that of their partition.
fn block_place(place: u64, blocks: &[BlockEntry]) -> u64
    ensures { result ≡ block_place place (last_or None blocks.now) }
{
    match last(blocks) {
        Some(block) => block.place,
        None => place,
    }
}

// The last place of these partitions, or the file's start.
fn last_place(partitions: &[PartitionEntry]) -> u64
    ensures { result ≡ last_place (last_or None partitions.now) }
{
    match last(partitions) {
        Some(partition) => block_place(partition.place, partition.blocks.as_slice()),
        None => 0,
    }
}

// Whether the partitions stand between the header and that place.
#[tactic(auto, unfolding(crate::specs::Reading::stand_before))]
fn stand_before(end: u64, partitions: &[PartitionEntry]) -> bool
    ensures { result ≡ stand_before end partitions.now }
{
    first_place(partitions) == HEADER_LENGTH && last_place(partitions) < end
}

/// The index that stands at that place, of partitions between the header and it.
#[tactic(auto, unfolding(crate::specs::Reading::own_index_at, crate::specs::Reading::filled_at))]
pub(crate) fn index_in(
    alloc: Global,
    bytes: &[u8],
    at: u64,
    order: &RowOrder,
) -> Result<PartitionIndex, ReadFault>
    requires long { length bytes.now < 2 ^ 62 }
    requires place { at < 2 ^ 62 }
    ensures index { Ends (λ i. i.partitions) result (own_index_at order.now (record { bytes = bytes.now; at = at })) }
    ensures order { IfOk result (λ i. i.order ≡ order.now) }
    ensures before { IfOk result (λ i. stand_before at i.partitions ≡ true) }
{
    let mut reader = Reader::new(bytes, at);
    let index = read_index(alloc, &mut reader, order)?;
    check_end(&reader)?;
    if stand_before(at, index.as_slice()) {
        return Ok(index);
    }
    Err(ReadFault::Bad { at })
}

// The bits of a filter of so many keys.
fn bits_for(keys: usize) -> u64
    requires { keys < 2 ^ 32 }
    ensures { result ≡ bits_for keys }
{
    ((KEY_BITS * keys as u64 + 7) / 8 * 8).max(LEAST_BITS)
}

/// The filter that stands at that place, of so many keys.
#[tactic(auto, unfolding(crate::specs::Reading::own_filter_at, crate::specs::Reading::filled_at))]
pub(crate) fn filter_in(
    alloc: Global,
    bytes: &[u8],
    at: u64,
    keys: usize,
) -> Result<Filter, ReadFault>
    requires long { length bytes.now < 2 ^ 62 }
    requires place { at < 2 ^ 62 }
    requires few { keys < 2 ^ 32 }
    ensures { Ends (λ f. f) result (own_filter_at keys (record { bytes = bytes.now; at = at })) }
{
    let mut reader = Reader::new(bytes, at);
    let filter = read_filter(alloc, &mut reader)?;
    check_end(&reader)?;
    if filter.bits() as u64 == bits_for(keys) {
        return Ok(filter);
    }
    Err(ReadFault::Bad { at })
}
