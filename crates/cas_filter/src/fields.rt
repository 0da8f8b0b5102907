//! The filter of a table file as bytes.

ghost use Rattle.std.specs.Prelude.{◌≡◌, ◌+◌, ◌<◌, ◌≤◌, ◌++◌, true, length, IfOk, OnOk, OnErr, vec_len};
ghost use Rattle.std.specs.Vec.{vec_capacity};
ghost use Rattle.cas_codec.specs.Reading.{Gives, checked, u32_at};
ghost use Rattle.cas_filter.specs.Spelling.{filter_bytes};
ghost use Rattle.cas_filter.specs.Reading.{is_bit_count, filter_at};

use crate::filter::{Filter, LEAST_BITS};
use cas_codec::{ReadFault, Reader, put_u32};
use cas_types::Mem;
use std::alloc::Global;

// The number of a filter's bits.
#[tactic(auto, unfolding(cas_codec::specs::Reading::checked, crate::specs::Reading::is_bit_count))]
fn read_bits(reader: &mut Reader<'_>) -> Result<u32, ReadFault>
    ensures exact { Gives (λ bits. bits) result reader.new (checked is_bit_count u32_at reader.old) }
    ensures counted { IfOk result (λ bits. is_bit_count bits ≡ true) }
{
    let at = reader.at();
    let bits = reader.u32()?;
    if bits as u64 >= LEAST_BITS && bits % 8 == 0 {
        return Ok(bits);
    }
    Err(ReadFault::Bad { at })
}

/// Reads a filter. Memory is taken only for bytes that are there.
#[tactic(auto, unfolding(crate::specs::Reading::filter_at))]
pub fn read_filter(alloc: Global, reader: &mut Reader<'_>) -> Result<Filter, ReadFault>
    ensures { Gives (λ f. f) result reader.new (filter_at reader.old) }
{
    let bits = read_bits(reader)?;
    let bytes = reader.bytes((bits / 8) as usize)?;
    Ok(Filter::of(bytes.to_vec(alloc)?))
}

/// Adds a filter.
pub fn put_filter(out: &mut Vec<u8>, filter: &Filter) -> Result<(), Mem>
    ensures written { OnOk result (out.new.items ≡ out.old.items ++ filter_bytes filter.now) }
    ensures length { OnOk result (vec_len out.new ≡ vec_len out.old + (4 + length filter.now)) }
    ensures unchanged { OnErr result (out.new.items ≡ out.old.items) }
    ensures full { OnErr result (vec_capacity out.old < vec_len out.old + (4 + length filter.now)) }
    ensures capacity { vec_capacity out.old ≤ vec_capacity out.new }
{
    let bytes = filter.as_slice();
    out.reserve(4 + bytes.len())?;
    put_u32(out, filter.bits())?;
    out.extend_from_slice(bytes)?;
    Ok(())
}
