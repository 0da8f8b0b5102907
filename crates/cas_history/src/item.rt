//! The entries of the history.
use crate::Entries;
use std::collections::LinkedList;

/// An entry. `session` and `pass` are the number of the list of who made it, `works` that of the list of a
/// table's flushes or of its compactions. `what` is the caller's: a mutation, a purge, a plan, a change.
pub enum Item<E> {
    /// What the opening found, as the first entry of a list: the last number, moment or file number.
    Found {
        list: u64,
        number: u64,
    },
    /// What the opening found of a table in a shard: its frontier and the numbers of its files.
    Stood {
        shard: u64,
        table: u64,
        frontier: u64,
        files: LinkedList<u64>,
        what: E,
    },
    /// An accepted mutation, with its number in the shard and the number of the session's write.
    Wrote {
        shard: u64,
        session: u64,
        call: u64,
        number: u64,
        what: E,
    },
    /// A purge that a compaction decided while it ran.
    Purged {
        shard: u64,
        works: u64,
        pass: u64,
        what: E,
    },
    /// What the room says of its disk: how many faults there were, how many mutations are committed, and the
    /// number of the fault that stopped it, 0 where none did.
    Faulted {
        number: u64,
        committed: u64,
        first: u64,
    },
    /// A reading of the clock, in microseconds since 1970.
    Read {
        pass: u64,
        micros: u64,
    },
    /// A reading raised a shard's moment.
    Rose {
        shard: u64,
        pass: u64,
        micros: u64,
    },
    /// A number for a new table file.
    Drew {
        pass: u64,
        file: u64,
    },
    /// A flush or a compaction began.
    Began {
        works: u64,
        pass: u64,
        what: E,
    },
    /// It ended, with its change or without.
    Ended {
        works: u64,
        pass: u64,
    },
    /// A change of a table's files in a shard: the number of the last mutation that they hold, the files that
    /// it removes and those that it adds.
    Changed {
        shard: u64,
        pass: u64,
        table: u64,
        frontier: u64,
        removed: LinkedList<u64>,
        added: LinkedList<u64>,
        what: E,
    },
}

impl<E> Entries for Item<E> {
    ghost use Rattle.cas_history.specs.Items.{items};

    ghost rules = { items };
}
