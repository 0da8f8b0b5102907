//! The index of a table file: where each partition stands, and the blocks of each; how it and the
//! file's footer are spelled as bytes, and what a read finds in it.
#![tactic(auto)]

mod entries;
mod footer;
mod index;
mod laws;
mod reading;
mod search;
mod writing;

pub use entries::{BlockAt, BlockEntry, PartitionEntry};
pub use footer::{FOOTER_LENGTH, Footer, put_footer, read_footer};
pub use index::PartitionIndex;
pub use laws::{footers_are_exact, indexes_are_exact, indexes_by_hand};
pub use reading::read_index;
pub use writing::{put_entries, put_index};
