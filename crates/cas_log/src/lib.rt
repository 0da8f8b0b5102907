//! The commit log: what the mutations of a commit are written to, so that after it they stand in
//! every image of the disk.
#![tactic(auto)]

mod blocks;
mod fault;
mod limits;
mod log;
mod writing;

pub use fault::LogFault;
pub use limits::{GREATEST_SEGMENT, LEAST_SEGMENT};
pub use log::Log;
