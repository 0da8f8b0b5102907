//! The entries of the manifest: which tables are defined, which segments and table files are listed;
//! how entries are spelled as bytes, a reader, which is told what was said so far, and a writer.
#![tactic(auto)]

mod changes;
mod entry;
mod laws;
mod numbers;
mod reading;
mod said;
mod taking;
mod writing;

pub use entry::{Change, Entry};
pub use laws::entries_are_exact;
pub use reading::read_entry;
pub use said::{FILE_LIMIT, LISTED_LIMIT, Part, SEGMENT_LIMIT, Said, ShardTimes, listed_after};
pub use writing::put_entry;
