//! The order of uuids, and what it goes by.

ghost use Rattle.std.specs.Prelude.{◌≡◌};
ghost use Rattle.std.specs.Option.{option_cmp};
ghost use Rattle.std.specs.Ordering.{nat_cmp, on, then_cmp};
ghost use Rattle.cas_types.specs.Values.{bytes_cmp, by_version, uuid_version, uuid_time};

use crate::bytes::compare_bytes;
use std::cmp::Ordering;

/// By version, then for version 1 by time, then by bytes.
pub(crate) fn compare_uuids(a: &[u8], b: &[u8]) -> Ordering
    ensures { result ≡ by_version a.now b.now }
{
    let versions = uuid_version(a).cmp(&uuid_version(b));
    versions.then_with(|| compare_by_time(a, b))
}

// Uuids of one version: those of version 1 by their time, then all by their bytes.
fn compare_by_time(a: &[u8], b: &[u8]) -> Ordering
    ensures { result ≡ then_cmp (on uuid_time (option_cmp nat_cmp)) bytes_cmp a.now b.now }
{
    uuid_time(a)
        .cmp(&uuid_time(b))
        .then_with(|| compare_bytes(a, b))
}

/// The version number of a uuid, where there are 16 bytes.
pub(crate) fn uuid_version(bytes: &[u8]) -> Option<u8>
    ensures { result ≡ uuid_version bytes.now }
{
    if bytes.len() == 16 {
        Some(bytes[6] / 16)
    } else {
        None
    }
}

/// The 60-bit time of a uuid of version 1.
pub(crate) fn uuid_time(bytes: &[u8]) -> Option<u64>
    ensures { result ≡ uuid_time bytes.now }
{
    match uuid_version(bytes) {
        Some(1) => Some(u64::from_be_bytes([
            bytes[6] % 16,
            bytes[7],
            bytes[4],
            bytes[5],
            bytes[0],
            bytes[1],
            bytes[2],
            bytes[3],
        ])),
        _ => None,
    }
}
