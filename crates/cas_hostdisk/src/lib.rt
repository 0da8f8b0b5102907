//! A folder over the files of the system. What they hold is known to no proof, so it tells nothing but
//! its counts of faults.
#![tactic(auto)]

mod calls;
mod folder;
mod names;

pub use folder::{HostDraft, HostFolder, HostSealed};
