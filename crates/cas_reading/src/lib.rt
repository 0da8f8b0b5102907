//! One table file that is read in many slices, with a cache of its raw blocks.
#![tactic(auto)]

mod cache;
mod reading;
mod slices;
mod sought;

pub use reading::Reading;
pub use slices::find_slice;
