//! The blocks of a table file, checked without building what they spell, and their fragments built
//! one at a time.
#![tactic(auto)]

mod blocks;
mod cells;
mod columns;
mod fragments;
mod notes;
mod places;
mod spelled;

pub use blocks::{Checked, check_block};
pub use spelled::Spelled;
