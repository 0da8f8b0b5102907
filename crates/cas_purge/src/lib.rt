//! The purge of a partition that comes as a stream: without what has been dead for long enough and
//! hides nothing elsewhere.
#![tactic(auto)]

mod ends;
mod laws;
mod purger;
mod rows;

pub use ends::{cell_end, droppable, live_end};
pub use laws::{
    merged_all_win, purge_drops_droppable, purge_is_merged, purge_is_same_above,
    purge_is_well_formed, purge_keeps_answers,
};
pub use purger::Purger;
