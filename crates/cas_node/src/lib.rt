//! The store as a program: from a script's bytes to the output's bytes, over a folder that lasts.
#![tactic(auto)]

mod cause;
mod laws;
mod program;
mod runner;
mod script;
mod upshot;

pub use cas_words::path_of;
pub use cause::Cause;
pub use laws::{
    files_are_few, flushes_are_granted, little_fits, memtables_fit, numbers_rise, one_outcome,
};
pub use program::{Outcome, SCRIPT_LIMIT, run};
pub use upshot::Upshot;
