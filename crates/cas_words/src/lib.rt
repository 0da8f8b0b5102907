//! The words of the command `cassnode`: what they set, and which words are the command's.
#![tactic(auto)]

mod words;

pub use words::{
    COMPACTOR_LIMIT, COMPACTORS_USUAL, ClockKind, Command, MEMTABLE_LEAST, MEMTABLE_LIMIT,
    MEMTABLE_USUAL, SEGMENT_LEAST, SEGMENT_LIMIT, SHARDS_USUAL, path_of, read_words,
};
