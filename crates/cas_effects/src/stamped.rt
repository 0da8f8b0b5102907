//! What is written at a stamp: livenesses, cells and deletions.

ghost use Rattle.std.specs.Prelude.{◌≡◌, ◌≤ℤ◌};
ghost use Rattle.cas_types.specs.declared.limits.TheConstants.{LAST_SECOND, LEAST_TIMESTAMP};
ghost use Rattle.cas_effects.specs.AtomsOf.{live_of, cell_of, deletion_of, deletion_before};

use cas_cell::{Cell, Deletion, Liveness};
use cas_types::Bytes;

/// The greatest number of a mutation in its shard, up to which the places in lists don't overflow.
pub const NUMBER_LIMIT: u64 = 1 << 62;

/// When a mutation is made: its timestamp in microseconds, its moment in seconds, its number in its
/// shard, and the seconds that what it writes lives, of which 0 are for ever.
#[derive(Clone, Copy)]
pub(crate) struct Stamp {
    pub at: i64,
    pub moment: i64,
    pub number: u64,
    pub ttl: u32,
}

pub(crate) fn liveness(stamp: Stamp) -> Liveness
    requires { stamp.moment ≤ℤ LAST_SECOND }
    ensures { result ≡ live_of stamp }
{
    if stamp.ttl == 0 {
        Liveness::Plain { at: stamp.at }
    } else {
        Liveness::Expiring {
            at: stamp.at,
            expiry: stamp.moment + i64::from(stamp.ttl),
            ttl: stamp.ttl,
        }
    }
}

pub(crate) fn cell_of(stamp: Stamp, value: Option<Bytes>) -> Cell
    requires { stamp.moment ≤ℤ LAST_SECOND }
    ensures { result ≡ cell_of stamp value }
{
    match value {
        Some(value) => {
            if stamp.ttl == 0 {
                Cell::Plain {
                    at: stamp.at,
                    value,
                }
            } else {
                Cell::Expiring {
                    at: stamp.at,
                    expiry: stamp.moment + i64::from(stamp.ttl),
                    ttl: stamp.ttl,
                    value,
                }
            }
        }
        None => Cell::Tombstone {
            at: stamp.at,
            second: stamp.moment,
        },
    }
}

pub(crate) fn deletion_of(stamp: Stamp) -> Deletion
    ensures { result ≡ deletion_of stamp }
{
    Deletion {
        at: stamp.at,
        second: stamp.moment,
    }
}

pub(crate) fn deletion_before(stamp: Stamp) -> Deletion
    requires { LEAST_TIMESTAMP ≤ℤ stamp.at }
    ensures { result ≡ deletion_before stamp }
{
    Deletion {
        at: stamp.at - 1,
        second: stamp.moment,
    }
}
