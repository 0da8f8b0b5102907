//! The disk of a store as all its shards share it: the folder with its journal, beside the seats of the
//! history that say what came onto it.
#![tactic(auto)]

mod changing;
mod dropping;
mod event;
mod fault;
mod room;
mod table_files;

pub use event::{Accepted, Changed, Event};
pub use fault::FreshFault;
pub use room::Room;
pub use table_files::LIVE_LIMIT;
