//! Reads files of a folder from their start on, in pieces.
#![tactic(auto)]

mod reader;
mod reading;

pub use reader::FileReader;
pub use reading::read_file;
