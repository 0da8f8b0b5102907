//! The values of a partition key's columns, read from the key's bytes.

ghost use Rattle.std.specs.Prelude.{◌≡◌, take, drop, IfOk};
ghost use Rattle.std.specs.Int.{w16, from_be_bytes};
ghost use Rattle.cas_atoms.specs.PartitionKeys.{components, key_values};

use cas_types::Bytes;
use std::alloc::{AllocError, Global};

// The first bytes, as many as there are of so many.
fn front(count: usize, bytes: &[u8]) -> &[u8]
    ensures { result.now ≡ take count bytes.now }
{
    &bytes[..count.min(bytes.len())]
}

// The bytes after the first ones.
fn after(count: usize, bytes: &[u8]) -> &[u8]
    ensures { result.now ≡ drop count bytes.now }
{
    &bytes[count.min(bytes.len())..]
}

// The number of two bytes in front. A byte that isn't there counts as 0.
fn length_in_front(key: &[u8]) -> u16
    ensures { result ≡ from_be_bytes w16 (take 2 key.now) }
{
    match key {
        [] => 0,
        [high] => u16::from_be_bytes([*high, 0]),
        [high, low, _rest @ ..] => u16::from_be_bytes([*high, *low]),
    }
}

fn components(alloc: Global, count: usize, key: &[u8]) -> Result<Vec<Bytes>, AllocError>
    ensures { IfOk result (λ v. v.items ≡ components count key.now) }
{
    let mut values = Vec::new(alloc);
    let mut rest = key;
    for _column in 0..count {
        let size = length_in_front(rest) as usize;
        values.push(Bytes::copy_of(alloc, front(size, after(2, rest)))?)?;
        rest = after(size + 3, rest);
    }
    Ok(values)
}

/// The values of a key of so many columns.
pub(crate) fn key_values(alloc: Global, count: usize, key: &[u8]) -> Result<Vec<Bytes>, AllocError>
    ensures { IfOk result (λ v. v.items ≡ key_values count key.now) }
{
    match count {
        0 => Ok(Vec::new(alloc)),
        1 => Ok(vec![in alloc; Bytes::copy_of(alloc, key)?]?),
        _ => components(alloc, count, key),
    }
}
