//! The live view of a partition that comes as a stream: its live rows, one after another.
#![tactic(auto)]

mod all;
mod in_order;
mod laws;
mod live_rows;
mod own_cells;
mod own_row;
mod viewer;
mod views;

pub use all::{all_rows, all_rows_and_source, all_rows_of};
pub use laws::{shows_what_is_written, streams_answer, walks_show};
pub use live_rows::LiveRows;
pub use viewer::Viewer;
