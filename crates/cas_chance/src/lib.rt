//! Scripts that are made by rules and by chance.
#![tactic(auto)]

mod chance;
mod scripts;

pub use scripts::generated;
