//! The merge of sources of a partition, itself a source: sources joined in pairs, and pairs in
//! pairs, and what is left of that under what covers it.
#![tactic(auto)]

mod bracket;
mod joining;
mod merger;
mod places;
mod settling;

pub use bracket::{Ahead, Bracket, Side};
pub use joining::{joined_fragment, opened, raised};
pub use merger::Merger;
pub use places::compare_fragments;
pub use settling::left_of;
