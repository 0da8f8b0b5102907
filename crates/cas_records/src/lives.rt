//! What an `INSERT` leaves of a row, as bytes.

ghost use Rattle.std.specs.Prelude.{◌≡◌, ◌+◌, ◌<◌, ◌≤◌, ◌++◌, OnOk, OnErr, vec_len};
ghost use Rattle.std.specs.Vec.{vec_capacity};
ghost use Rattle.cas_codec.specs.Reading.{Gives};
ghost use Rattle.cas_atoms.specs.LogLength.{live_length};
ghost use Rattle.cas_records.specs.Spelling.{live_bytes};
ghost use Rattle.cas_records.specs.Reading.{live_at};

use crate::times::{read_timestamp, read_ttl};
use cas_cell::Liveness;
use cas_codec::{ReadFault, Reader, put_i64, put_u8, put_u32};
use cas_types::Mem;

/// Reads what an `INSERT` leaves of a row.
#[tactic(auto, unfolding(crate::specs::Reading::live_at))]
pub fn read_live(reader: &mut Reader<'_>) -> Result<Liveness, ReadFault>
    ensures { Gives (λ l. l) result reader.new (live_at reader.old) }
{
    let expires = reader.flag()?;
    let at = read_timestamp(reader)?;
    if !expires {
        return Ok(Liveness::Plain { at });
    }
    let expiry = reader.i64()?;
    let ttl = read_ttl(reader)?;
    Ok(Liveness::Expiring { at, expiry, ttl })
}

/// Adds what an `INSERT` leaves of a row.
pub fn put_live(out: &mut Vec<u8>, live: &Liveness) -> Result<(), Mem>
    ensures written { OnOk result (out.new.items ≡ out.old.items ++ live_bytes live.now) }
    ensures length { OnOk result (vec_len out.new ≡ vec_len out.old + live_length live.now) }
    ensures unchanged { OnErr result (out.new.items ≡ out.old.items) }
    ensures full { OnErr result (vec_capacity out.old < vec_len out.old + live_length live.now) }
    ensures capacity { vec_capacity out.old ≤ vec_capacity out.new }
{
    match live {
        Liveness::Plain { at } => {
            out.reserve(9)?;
            put_u8(out, 0)?;
            put_i64(out, *at)
        }
        Liveness::Expiring { at, expiry, ttl } => {
            out.reserve(21)?;
            put_u8(out, 1)?;
            put_i64(out, *at)?;
            put_i64(out, *expiry)?;
            put_u32(out, *ttl)
        }
    }
}
