//! Partition keys as bytes.

ghost use Rattle.cas_codec.specs.Reading.{Gives};
ghost use Rattle.cas_records.specs.Reading.{key_at};

use cas_codec::{ReadFault, Reader};
use cas_types::{Bytes, KEY_LIMIT};
use std::alloc::Global;

/// Reads a partition key.
#[tactic(auto, unfolding(crate::specs::Reading::key_at, cas_codec::specs::Reading::checked))]
pub fn read_key(alloc: Global, reader: &mut Reader<'_>) -> Result<Bytes, ReadFault>
    ensures { Gives (λ b. b) result reader.new (key_at reader.old) }
{
    let at = reader.at();
    let bytes = reader.bytes16()?;
    let length = bytes.len() as u64;
    if 1 <= length && length <= KEY_LIMIT {
        return Ok(Bytes::copy_of(alloc, bytes)?);
    }
    Err(ReadFault::Bad { at })
}
