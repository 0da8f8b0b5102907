//! What comes and goes in the history of a node: flushes and compactions with whose turn they are, table
//! files with their book, sessions with who makes them.
#![tactic(auto)]

mod book;
mod changes;
mod laws;
mod maker;
mod works;

pub use book::Book;
pub use changes::{
    Change, Changes, RoomCopy, Standing, files_apart, files_stand, frontiers_stand,
    held_is_unlisted, install, list_found,
};
pub use laws::{begin_alone, book_stands, conclude, nothing_runs, room_stands};
pub use maker::Maker;
pub use works::Works;
