//! The bytes of a block before it is written.

ghost use Rattle.std.specs.Prelude.{◌≡◌, ◌+◌, ◌<◌, ◌^◌, [], ◌∷◌, ◌++◌, length, drop, take, vec_len, OnOk, IfOk, IfErr};
ghost use Rattle.cas_changes.specs.Spelling.{entry_bytes};
ghost use Rattle.cas_changes.specs.Allowed.{HasSpelling};
ghost use Rattle.cas_manifest.specs.File.{lengths, block};

use crate::fault::ManifestFault;
use cas_changes::{Entry, put_entry};
use cas_codec::put_u32;
use cas_types::Mem;
use std::alloc::Global;

// The bytes of an entry.
fn body_of(alloc: Global, entry: &Entry) -> Result<Vec<u8>, Mem>
    requires { HasSpelling entry.now }
    ensures { IfOk result (λ v. v.items ≡ entry_bytes entry.now) }
{
    let mut body = Vec::new(alloc);
    put_entry(&mut body, entry)?;
    Ok(body)
}

// Adds the lengths of a block of one entry.
#[tactic(auto, unfolding(crate::specs::File::lengths))]
fn put_lengths(out: &mut Vec<u8>, long: u32) -> Result<(), Mem>
    ensures { OnOk result (out.new.items ≡ out.old.items ++ lengths long 1) }
{
    put_u32(out, long)?;
    put_u32(out, 1)
}

// The block of a body, and the next gate, closed.
fn block_around(alloc: Global, body: &[u8]) -> Result<Vec<u8>, Mem>
    requires { length body.now < 2 ^ 32 }
    ensures { IfOk result (λ v. v.items ≡ lengths (length body.now) 1 ++ body.now ++ 0 ∷ []) }
{
    let mut block = Vec::new(alloc);
    put_lengths(&mut block, body.len() as u32)?;
    block.extend_from_slice(body)?;
    block.push(0)?;
    Ok(block)
}

/// The block of an entry, and the next gate, closed.
pub(crate) fn block_of(alloc: Global, entry: &Entry) -> Result<Vec<u8>, ManifestFault>
    requires spelled { HasSpelling entry.now }
    requires short { length (entry_bytes entry.now) < 2 ^ 32 }
    ensures bytes { IfOk result (λ v. v.items ≡ block entry.now ++ 0 ∷ []) }
    ensures why { IfErr result (λ f. f ≡ ManifestFault.Mem) }
{
    let Ok(body) = body_of(alloc, entry) else {
        return Err(ManifestFault::Mem);
    };
    match block_around(alloc, &body) {
        Ok(block) => Ok(block),
        Err(Mem) => Err(ManifestFault::Mem),
    }
}
