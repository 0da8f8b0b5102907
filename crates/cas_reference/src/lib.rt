//! The slow reference: a store that keeps all that it accepted in a list, and answers each SELECT by the live
//! view of all atoms of its partition.
#![tactic(auto)]

mod accepted;
mod altered;
mod reading;
mod reference;
mod status;
mod tail;

pub use reference::Reference;
