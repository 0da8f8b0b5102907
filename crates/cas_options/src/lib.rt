//! The options of a table: which there are, whether they have values that they can have, and what they
//! are by what a CREATE TABLE gives them.
#![tactic(auto)]

mod compaction;
mod options;
mod ranges;
mod settings;

pub use options::{options_fit, options_of};
