//! What a table file has of one partition, block by block, as a stream cut to a slice.
#![tactic(auto)]

mod cutting;
mod fault;
mod file;
mod heads;
mod laws;
mod origin;
mod pieces;
mod reading;
mod seeking;
mod source;
mod steps;
mod window;

pub use fault::TableFault;
pub use file::TableFile;
pub use heads::read_head_at;
pub use laws::{cuts_are_one, tables_are_read};
pub use origin::{FromFile, Origin};
pub use source::Blocks;
