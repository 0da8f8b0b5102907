//! A script as lines, and what each line says: a statement of CQL, a command, nothing, or bad syntax.
#![tactic(auto)]

mod laws;
mod line;
mod lines;

pub use laws::{flushes_are_read, one_reading, status_is_read, verifies_are_read};
pub use line::{Line, read_line};
pub use lines::next_line;
