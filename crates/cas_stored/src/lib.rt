//! What a table has stored in a shard, in memory and in files: a slice of a key's partition in a file
//! that is loaded, its partitions as streams of both, and what a SELECT shows of them.
#![tactic(auto)]

mod file;
mod files;
mod laws;
mod places;
mod rows;
mod slices;
mod source;
mod table;

pub use file::FileSource;
pub use laws::{files_are_read, loaded_is_of, loaded_stands};
pub use places::BadPlaces;
pub use slices::read_slice;
pub use source::{Source, StoredSource};
pub use table::TableStore;
