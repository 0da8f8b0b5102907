//! The steps of a flush of a table in a shard, beside those of the shard and of the room: what is frozen is written to a table
//! file, and the view that has this file is made. And what holds of memory and files then.
#![tactic(auto)]

mod laws;
mod view;
mod write;

pub use laws::{added_columns_stay, flush_stands, new_tables_hold_nothing};
pub use view::view_of_flush;
pub use write::write_frozen;
