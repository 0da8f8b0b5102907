//! What stands in a table file of contents, and what stands in one that a flush wrote: laws alone.
#![tactic(auto)]

mod laws;

pub use laws::{contents_stand, flushed_say_the_same, listed_contents_stand};
