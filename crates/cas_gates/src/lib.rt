//! Blocks behind gates: how the commit log and the manifest add a block to their file so that a
//! crash leaves it whole or not at all.
#![tactic(auto)]

mod first;
mod gated;

pub use first::First;
pub use gated::write_gated;
