//! Opens the store of a folder, or makes one, so that it can be written on: what lasts is exactly what
//! was read.
#![tactic(auto)]

mod collecting;
mod fault;
mod naming;
mod opened;
mod opening;
mod reading;
mod stored;
mod sweeping;

pub use fault::OpenFault;
pub use opened::{OpenStore, Opened};
pub use opening::{open, open_to};
