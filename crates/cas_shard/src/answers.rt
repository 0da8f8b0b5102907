//! What a shard answers.

use cas_atoms::LiveRow;
use cas_types::List;

/// Why a write isn't taken.
#[derive(Clone, Copy, Debug, PartialEq, Eq)]
pub enum TakeFault {
    /// It is refused, for the reason of this number.
    Refused(u8),
    /// Memory ran out.
    Mem,
}

/// What a SELECT shows: its rows, the number of the last mutation that it reads, and its moment in
/// seconds.
#[derive(Drop)]
pub struct Look {
    pub rows: List<LiveRow>,
    pub front: u64,
    pub now: i64,
}
