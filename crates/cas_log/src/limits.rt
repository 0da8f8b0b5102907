//! How long a segment may be.

/// The least and the greatest size of a segment, in bytes.
pub const LEAST_SEGMENT: u64 = 4096;

pub const GREATEST_SEGMENT: u64 = 1 << 25;
