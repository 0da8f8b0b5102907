//! The limits that several layers share; contracts cite them by these names.

/// The most columns that a table has.
pub const COLUMN_LIMIT: u64 = 256;

/// The most shards that a store has.
pub const SHARD_LIMIT: u8 = 16;

/// The most bytes of a partition key, of a clustering column's value, of a set's element and of a
/// map's key.
pub const KEY_LIMIT: u64 = 65_535;

/// The most seconds of a TTL: twenty years.
pub const TTL_LIMIT: u32 = 630_720_000;

/// The last nanosecond of a day, the greatest `time`.
pub const LAST_NANOSECOND: u64 = 86_399_999_999_999;

/// The last second of the year 9999, the greatest moment.
pub const LAST_SECOND: i64 = 253_402_300_799;

/// The last microsecond of the year 9999, the greatest reading of a clock.
pub const LAST_MICROSECOND: i64 = 253_402_300_799_999_999;

/// The least timestamp that USING TIMESTAMP takes: one less is still a timestamp, and two less is
/// one that no statement has.
pub const LEAST_TIMESTAMP: i64 = -(i64::MAX - 2);

/// The greatest timestamp that USING TIMESTAMP takes.
pub const GREATEST_TIMESTAMP: i64 = i64::MAX - 1;

/// The least timestamp of anything written or deleted, one less than USING TIMESTAMP takes: what
/// `c = {..}` deletes of a collection, it deletes just before its own timestamp.
pub const LEAST_RECORDED: i64 = -(i64::MAX - 1);

/// The greatest timestamp that is drawn for a statement without USING TIMESTAMP.
pub const LAST_DRAWN: i64 = 1 << 62;

/// The greatest number of a mutation in its shard.
pub const MUTATION_LIMIT: u64 = 1 << 60;

/// The most rows that LIMIT takes.
pub const ROW_LIMIT: u32 = (1 << 31) - 1;

/// The bytes of a path of a list: two numbers of eight bytes.
pub const LIST_PATH: u64 = 16;
