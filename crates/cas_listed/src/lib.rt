//! The table files that a manifest lists of a table in a shard, loaded, as an opening finds them.
#![tactic(auto)]

mod fault;
mod laws;
mod loading;

pub use fault::ListedFault;
pub use laws::{files_are_never_bad, listed_files_hold};
pub use loading::load_listed;
