//! The ranges and the defaults of the options that are numbers.

use cas_types::TTL_LIMIT;

/// The least and the greatest value of an option, and the value of a table that isn't given one. Those
/// of a ratio are in hundredths.
#[derive(Clone, Copy)]
pub struct OptionRange {
    pub is_ratio: bool,
    pub least: u64,
    pub greatest: u64,
    pub default: u64,
}

/// `gc_grace_seconds`: the default is ten days.
pub const GC_GRACE_SECONDS: OptionRange = OptionRange {
    is_ratio: false,
    least: 0,
    greatest: 2_147_483_647,
    default: 864_000,
};

/// `default_time_to_live`, in seconds.
pub const DEFAULT_TIME_TO_LIVE: OptionRange = OptionRange {
    is_ratio: false,
    least: 0,
    greatest: TTL_LIMIT as u64,
    default: 0,
};

/// `min_threshold`: the fewest tables on disk that are compacted together.
pub const MIN_THRESHOLD: OptionRange = OptionRange {
    is_ratio: false,
    least: 2,
    greatest: 64,
    default: 4,
};

/// `max_threshold`: the most of them.
pub const MAX_THRESHOLD: OptionRange = OptionRange {
    is_ratio: false,
    least: 2,
    greatest: 64,
    default: 32,
};

/// `bucket_low`: from 0.01 to 0.99.
pub const BUCKET_LOW: OptionRange = OptionRange {
    is_ratio: true,
    least: 1,
    greatest: 99,
    default: 50,
};

/// `bucket_high`: from 1.01 to 100.
pub const BUCKET_HIGH: OptionRange = OptionRange {
    is_ratio: true,
    least: 101,
    greatest: 10_000,
    default: 150,
};

/// `min_sstable_size`, in bytes: at most a tebibyte.
pub const MIN_SSTABLE_SIZE: OptionRange = OptionRange {
    is_ratio: false,
    least: 0,
    greatest: 1_099_511_627_776,
    default: 52_428_800,
};

/// `sstable_size_in_mb`.
pub const SSTABLE_SIZE_IN_MB: OptionRange = OptionRange {
    is_ratio: false,
    least: 1,
    greatest: 1_024,
    default: 160,
};

/// `fanout_size`: how much more a level holds than the one before it.
pub const FANOUT_SIZE: OptionRange = OptionRange {
    is_ratio: false,
    least: 2,
    greatest: 100,
    default: 10,
};

/// `compaction_window_size`, in `compaction_window_unit`s.
pub const COMPACTION_WINDOW_SIZE: OptionRange = OptionRange {
    is_ratio: false,
    least: 1,
    greatest: 65_535,
    default: 1,
};
