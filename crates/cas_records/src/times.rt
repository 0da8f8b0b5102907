//! Timestamps and TTLs as fields.

ghost use Rattle.cas_codec.specs.Reading.{Gives};
ghost use Rattle.cas_records.specs.Reading.{timestamp_at, ttl_at};

use cas_codec::{ReadFault, Reader};
use cas_types::{GREATEST_TIMESTAMP, LEAST_RECORDED, TTL_LIMIT};

/// Reads a timestamp.
#[tactic(auto, unfolding(crate::specs::Reading::timestamp_at))]
pub fn read_timestamp(reader: &mut Reader<'_>) -> Result<i64, ReadFault>
    ensures { Gives (λ at. at) result reader.new (timestamp_at reader.old) }
{
    reader.i64_within(LEAST_RECORDED, GREATEST_TIMESTAMP)
}

#[tactic(auto, unfolding(crate::specs::Reading::ttl_at))]
pub(crate) fn read_ttl(reader: &mut Reader<'_>) -> Result<u32, ReadFault>
    ensures { Gives (λ ttl. ttl) result reader.new (ttl_at reader.old) }
{
    reader.u32_within(1, TTL_LIMIT)
}
