//! Writes table files: a partition at a time, of which no more than a block is held.
#![tactic(auto)]

mod fault;
mod finish;
mod held;
mod laws;
mod part;
mod partition;
mod rooms;
mod rows;
mod sink;
mod writer;

pub use fault::{Measure, PartitionFault, WriteFault};
pub use held::TableWriter;
pub use laws::what_fits_is_written;
pub use rooms::{has_room, have_room};
