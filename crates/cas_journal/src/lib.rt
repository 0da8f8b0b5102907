//! What of a store lasts: its manifest and the segments of its commit log, written so that in every
//! image of the disk stand all definitions and a front of the mutations, with each that is committed.
#![tactic(auto)]

mod dropping;
mod fault;
mod journal;
mod making_room;
mod notes;
mod writing;

pub use fault::{Counted, JournalFault};
pub use journal::Journal;
pub use notes::{Note, Notes};
