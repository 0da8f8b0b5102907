//! The store that a folder has, read back into memory: its tables, its shards with what the log and the table
//! files have of them, and its journal; or a new store.
#![tactic(auto)]

mod all_shards;
mod fault;
mod filling;
mod laws;
mod memory;
mod recovering;

pub use fault::RecoveryFault;
pub use laws::{explained_is_taken, log_explains};
pub use memory::Started;
pub use recovering::recover;
