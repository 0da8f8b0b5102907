//! What a `DELETE` leaves, as bytes.

ghost use Rattle.std.specs.Prelude.{◌≡◌, ◌+◌, ◌<◌, ◌≤◌, ◌++◌, OnOk, OnErr, vec_len};
ghost use Rattle.std.specs.Vec.{vec_capacity};
ghost use Rattle.cas_codec.specs.Reading.{Gives};
ghost use Rattle.cas_atoms.specs.LogLength.{deletion_length};
ghost use Rattle.cas_records.specs.Spelling.{deletion_bytes};
ghost use Rattle.cas_records.specs.Reading.{deletion_at};

use crate::times::read_timestamp;
use cas_cell::Deletion;
use cas_codec::{ReadFault, Reader, put_i64};
use cas_types::Mem;

/// Reads a deletion.
#[tactic(auto, unfolding(crate::specs::Reading::deletion_at))]
pub fn read_deletion(reader: &mut Reader<'_>) -> Result<Deletion, ReadFault>
    ensures { Gives (λ d. d) result reader.new (deletion_at reader.old) }
{
    let at = read_timestamp(reader)?;
    let second = reader.i64()?;
    Ok(Deletion { at, second })
}

/// Adds a deletion.
#[tactic(auto, unfolding(crate::specs::Spelling::deletion_bytes))]
pub fn put_deletion(out: &mut Vec<u8>, deletion: &Deletion) -> Result<(), Mem>
    ensures written { OnOk result (out.new.items ≡ out.old.items ++ deletion_bytes deletion.now) }
    ensures length { OnOk result (vec_len out.new ≡ vec_len out.old + deletion_length) }
    ensures unchanged { OnErr result (out.new.items ≡ out.old.items) }
    ensures full { OnErr result (vec_capacity out.old < vec_len out.old + deletion_length) }
    ensures capacity { vec_capacity out.old ≤ vec_capacity out.new }
{
    out.reserve(16)?;
    put_i64(out, deletion.at)?;
    put_i64(out, deletion.second)
}
