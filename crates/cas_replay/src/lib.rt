//! Reads the segments of the commit log: hands on the mutations that were committed to them, one after
//! another, or tells the place of the first field that isn't as it must be.
#![tactic(auto)]

mod fault;
mod file;
mod lasts;
mod laws;
mod log;
mod reading;
mod segment;
mod taker;
mod tops;

pub use fault::ReplayFault;
pub use laws::logs_are_exact;
pub use log::{replay, replay_to};
pub use taker::TakesMutations;
pub use tops::{Tops, place_in};
