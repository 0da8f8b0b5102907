//! The ranges and the defaults of the suboptions of compaction.

ghost use Rattle.std.specs.Prelude.{◌≡◌};
ghost use Rattle.cas_schemas.specs.Options.{allows};

/// The least and the greatest value of a suboption, and the value where the table's strategy doesn't
/// have it. Those of a ratio are in hundredths.
#[derive(Clone, Copy)]
pub struct Range {
    pub least: u64,
    pub greatest: u64,
    pub default: u64,
}

/// The greatest `gc_grace_seconds`.
pub const GRACE_LIMIT: u32 = 2_147_483_647;

pub const MIN_THRESHOLD: Range = Range {
    least: 2,
    greatest: 64,
    default: 4,
};

pub const MAX_THRESHOLD: Range = Range {
    least: 2,
    greatest: 64,
    default: 32,
};

pub const BUCKET_LOW: Range = Range {
    least: 1,
    greatest: 99,
    default: 50,
};

pub const BUCKET_HIGH: Range = Range {
    least: 101,
    greatest: 10_000,
    default: 150,
};

pub const MIN_SSTABLE_SIZE: Range = Range {
    least: 0,
    greatest: 1_099_511_627_776,
    default: 52_428_800,
};

pub const SSTABLE_SIZE_IN_MB: Range = Range {
    least: 1,
    greatest: 1_024,
    default: 160,
};

pub const FANOUT_SIZE: Range = Range {
    least: 2,
    greatest: 100,
    default: 10,
};

pub const WINDOW_SIZE: Range = Range {
    least: 1,
    greatest: 65_535,
    default: 1,
};

/// Whether a suboption may be so, where the strategy has it or not.
pub(crate) fn allows(has: bool, range: Range, value: u64) -> bool
    ensures { result ≡ allows has range value }
{
    match has {
        true => range.least <= value && value <= range.greatest,
        false => value == range.default,
    }
}
