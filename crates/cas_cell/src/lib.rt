//! What a write or a delete leaves behind for one column, for a row or for a range of rows, and
//! which of two wins. Whatever the order in which they come, the same one wins.
#![tactic(auto)]

mod cell;
mod deletion;
mod laws;
mod liveness;

pub use cell::{Cell, alive, wins};
pub use deletion::{Deletion, covers, del_wins};
pub use laws::{cell_laws, deletion_laws, live_laws};
pub use liveness::{Liveness, live_alive, live_wins};
