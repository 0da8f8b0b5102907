//! What a line of a script is answered. A line that says nothing has no reply.

use cas_atoms::LiveRow;
use cas_types::{List, Text};

/// Why a statement that wasn't refused came to nothing, or isn't known to have come to something.
#[derive(Clone, Copy, Debug, PartialEq, Eq)]
pub enum Failure {
    /// Memory ran out.
    Memory,
    /// An earlier write to the disk failed, and nothing is written any more.
    Stopped,
    /// A write to the disk failed.
    Disk,
    /// A read of a table file failed.
    Read,
    /// The bytes at that place of the table file of that number aren't as they must be.
    Block { number: u64, at: u64 },
}

/// The table files that are listed of a table in a shard: the table's name, and their numbers.
#[derive(Drop)]
pub struct Listed {
    pub table: Text,
    pub shard: u8,
    pub files: List<u64>,
}

/// What was found of a table file that was read to its end: its number, and the place of the first thing in it that
/// isn't as it must be, if there is one.
#[derive(Clone, Copy, Debug, PartialEq, Eq)]
pub struct Verdict {
    pub number: u64,
    pub bad: Option<u64>,
}

/// What a line is answered.
#[derive(Drop)]
pub enum Reply {
    /// Done, as a definition is.
    Done,
    /// The mutation was accepted, with this number of its shard.
    Wrote {
        number: u64,
    },
    /// The rows of a slice of the shard, as of the mutation of the number `front` and the moment
    /// `now` in seconds.
    Rows {
        rows: List<LiveRow>,
        shard: u8,
        front: u64,
        now: i64,
    },
    /// A table was flushed, to the table files of these numbers.
    Flushed {
        files: List<u64>,
    },
    /// The table files of a table were checked: what was found of each.
    Verified {
        files: List<Verdict>,
    },
    /// The table files that are listed, of each table in each shard.
    Status {
        tables: List<Listed>,
    },
    /// Refused, with the refusal's number.
    Refused(u8),
    /// Neither done nor refused.
    Failed(Failure),
}
