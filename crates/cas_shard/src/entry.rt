//! What is entered into the history of a shard.

use cas_atoms::Mutation;
use cas_types::List;

/// One entry of a shard's history.
#[derive(Drop)]
pub enum Entry {
    /// A mutation was accepted, in this call of this session. Session 0 runs the lines that run
    /// alone, and its calls are numbered as lines stand in the script, from 1.
    Wrote {
        session: u32,
        call: u64,
        mutation: Mutation,
    },
}

/// A shard as a store was opened with it: its entries, the number of its last mutation (0 without
/// one), the last timestamp that it drew (-2 without one), and its last moment in seconds.
#[derive(Drop)]
pub struct ShardOpening {
    pub entries: List<Entry>,
    pub number: u64,
    pub drawn: i64,
    pub moment: i64,
}
