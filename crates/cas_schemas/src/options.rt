//! Reads the options of a table.

ghost use Rattle.std.specs.Prelude.{◌≡◌};
ghost use Rattle.cas_codec.specs.Reading.{Gives, checked, u16_at, u32_at, u64_at};
ghost use Rattle.cas_schemas.specs.Options.{allows, is_leveled, has_buckets, has_windows, allows_most, allows_unit};
ghost use Rattle.cas_schemas.specs.Reading.{ages_at, most_at, buckets_at, sizes_at, unit_at, window_at, options_at};

use crate::codes::{read_strategy, read_unit};
use crate::ranges::{
    BUCKET_HIGH, BUCKET_LOW, FANOUT_SIZE, GRACE_LIMIT, MAX_THRESHOLD, MIN_SSTABLE_SIZE,
    MIN_THRESHOLD, Range, SSTABLE_SIZE_IN_MB, WINDOW_SIZE, allows,
};
use cas_codec::{ReadFault, Reader};
use cas_types::{Options, Strategy, TTL_LIMIT, Unit};

fn is_leveled(strategy: Strategy) -> bool
    ensures { result ≡ is_leveled strategy }
{
    matches!(strategy, Strategy::Leveled)
}

fn has_windows(strategy: Strategy) -> bool
    ensures { result ≡ has_windows strategy }
{
    matches!(strategy, Strategy::TimeWindow)
}

// A suboption of two bytes, which the strategy has or not.
#[tactic(auto, unfolding(cas_codec::specs::Reading::checked))]
fn read_u16(reader: &mut Reader<'_>, has: bool, range: Range) -> Result<u16, ReadFault>
    ensures { Gives (λ n. n) result reader.new (checked (allows has range) u16_at reader.old) }
{
    let at = reader.at();
    let number = reader.u16()?;
    if allows(has, range, number as u64) {
        return Ok(number);
    }
    Err(ReadFault::Bad { at })
}

#[tactic(auto, unfolding(cas_codec::specs::Reading::checked))]
fn read_u32(reader: &mut Reader<'_>, has: bool, range: Range) -> Result<u32, ReadFault>
    ensures { Gives (λ n. n) result reader.new (checked (allows has range) u32_at reader.old) }
{
    let at = reader.at();
    let number = reader.u32()?;
    if allows(has, range, number as u64) {
        return Ok(number);
    }
    Err(ReadFault::Bad { at })
}

#[tactic(auto, unfolding(cas_codec::specs::Reading::checked))]
fn read_u64(reader: &mut Reader<'_>, has: bool, range: Range) -> Result<u64, ReadFault>
    ensures { Gives (λ n. n) result reader.new (checked (allows has range) u64_at reader.old) }
{
    let at = reader.at();
    let number = reader.u64()?;
    if allows(has, range, number) {
        return Ok(number);
    }
    Err(ReadFault::Bad { at })
}

// How long deletions are kept, how long values live, and the strategy.
#[tactic(auto, unfolding(crate::specs::Reading::ages_at))]
fn read_ages(reader: &mut Reader<'_>) -> Result<(u32, u32, Strategy), ReadFault>
    ensures { Gives (λ a. a) result reader.new (ages_at reader.old) }
{
    let grace = reader.u32_within(0, GRACE_LIMIT)?;
    let ttl = reader.u32_within(0, TTL_LIMIT)?;
    let strategy = read_strategy(reader)?;
    Ok((grace, ttl, strategy))
}

// The most files that are compacted together, not below the fewest.
#[tactic(auto, unfolding(crate::specs::Reading::most_at, cas_codec::specs::Reading::checked))]
fn read_most(reader: &mut Reader<'_>, has: bool, fewest: u16) -> Result<u16, ReadFault>
    ensures { Gives (λ n. n) result reader.new (most_at has fewest reader.old) }
{
    let at = reader.at();
    let number = reader.u16()?;
    if allows(has, MAX_THRESHOLD, number as u64) && fewest <= number {
        return Ok(number);
    }
    Err(ReadFault::Bad { at })
}

#[tactic(auto, unfolding(crate::specs::Reading::buckets_at))]
fn read_buckets(reader: &mut Reader<'_>, has: bool) -> Result<(u16, u16, u32, u32), ReadFault>
    ensures { Gives (λ b. b) result reader.new (buckets_at has reader.old) }
{
    let fewest = read_u16(reader, has, MIN_THRESHOLD)?;
    let most = read_most(reader, has, fewest)?;
    let low = read_u32(reader, has, BUCKET_LOW)?;
    let high = read_u32(reader, has, BUCKET_HIGH)?;
    Ok((fewest, most, low, high))
}

// The least size of a bucket, and the sizes of levels.
#[tactic(auto, unfolding(crate::specs::Reading::sizes_at))]
fn read_sizes(
    reader: &mut Reader<'_>,
    has_buckets: bool,
    has_levels: bool,
) -> Result<(u64, u16, u16), ReadFault>
    ensures { Gives (λ s. s) result reader.new (sizes_at has_buckets has_levels reader.old) }
{
    let least = read_u64(reader, has_buckets, MIN_SSTABLE_SIZE)?;
    let table = read_u16(reader, has_levels, SSTABLE_SIZE_IN_MB)?;
    let fanout = read_u16(reader, has_levels, FANOUT_SIZE)?;
    Ok((least, table, fanout))
}

// The unit of windows.
#[tactic(auto, unfolding(crate::specs::Reading::unit_at, cas_codec::specs::Reading::checked))]
fn read_window_unit(reader: &mut Reader<'_>, has: bool) -> Result<Unit, ReadFault>
    ensures { Gives (λ u. u) result reader.new (unit_at has reader.old) }
{
    let at = reader.at();
    let unit = read_unit(reader)?;
    if has || matches!(unit, Unit::Days) {
        return Ok(unit);
    }
    Err(ReadFault::Bad { at })
}

#[tactic(auto, unfolding(crate::specs::Reading::window_at))]
fn read_window(reader: &mut Reader<'_>, has: bool) -> Result<(Unit, u16), ReadFault>
    ensures { Gives (λ w. w) result reader.new (window_at has reader.old) }
{
    let unit = read_window_unit(reader, has)?;
    let size = read_u16(reader, has, WINDOW_SIZE)?;
    Ok((unit, size))
}

/// Reads the options of a table.
#[tactic(auto, unfolding(crate::specs::Reading::options_at))]
pub(crate) fn read_options(reader: &mut Reader<'_>) -> Result<Options, ReadFault>
    ensures { Gives (λ o. o) result reader.new (options_at reader.old) }
{
    let (gc_grace_seconds, default_time_to_live, strategy) = read_ages(reader)?;
    let has_levels = is_leveled(strategy);
    let (min_threshold, max_threshold, bucket_low, bucket_high) = read_buckets(
        reader,
        !has_levels,
    )?;
    let (min_sstable_size, sstable_size_in_mb, fanout_size) = read_sizes(
        reader,
        !has_levels,
        has_levels,
    )?;
    let (unit, window) = read_window(reader, has_windows(strategy))?;
    Ok(Options {
        gc_grace_seconds,
        default_time_to_live,
        strategy,
        min_threshold,
        max_threshold,
        bucket_low,
        bucket_high,
        min_sstable_size,
        sstable_size_in_mb,
        fanout_size,
        unit,
        window,
    })
}
