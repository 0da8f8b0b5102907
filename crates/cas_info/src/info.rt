//! What is told of a table file, and what a compaction is to do with such files.

ghost use Rattle.std.specs.Prelude.{◌≡◌};
ghost use Rattle.cas_info.specs.Overlaps.{reaches, overlaps};

use cas_types::{Bytes, List, compare_bytes};

/// The greatest number of a table file.
pub const FILE_NUMBER_LIMIT: u64 = 1 << 60;

/// The most bytes of a table file.
pub const FILE_LIMIT: u64 = 1 << 40;

/// The greatest level.
pub const LAST_LEVEL: u8 = 8;

/// The most partitions of a table file.
pub const PARTITION_LIMIT: u32 = 1 << 28;

/// What is told of a table file: its number, its length in bytes, its first and its last key, the
/// least and the greatest timestamp in it, in microseconds, its level, and how many keys it has.
/// Where everything in it is deleted or expires, `dead` is the last second at which something was
/// deleted or expires.
#[derive(Clone, Drop)]
pub struct TableInfo {
    pub number: u64,
    pub bytes: u64,
    pub first: Bytes,
    pub last: Bytes,
    pub least: i64,
    pub greatest: i64,
    pub dead: Option<i64>,
    pub level: u8,
    pub keys: u32,
}

/// What a compaction is to do with the files of these numbers: merge them into files of a level,
/// each ended once its partitions have so many bytes; or drop them.
#[derive(Drop)]
pub enum Plan {
    Merge {
        inputs: List<u64>,
        level: u8,
        cut_at: Option<u64>,
    },
    Drop {
        inputs: List<u64>,
    },
}

// Whether the first key isn't above the second.
fn reaches(from: &Bytes, to: &Bytes) -> bool
    ensures { result ≡ reaches from.now to.now }
{
    compare_bytes(from.as_slice(), to.as_slice()).is_le()
}

/// Whether the keys of the two, each from its first to its last, have one in common.
pub fn overlaps(a: &TableInfo, b: &TableInfo) -> bool
    ensures { result ≡ overlaps a.now b.now }
{
    reaches(&a.first, &b.last) && reaches(&b.first, &a.last)
}
