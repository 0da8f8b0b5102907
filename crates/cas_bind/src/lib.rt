//! From a parsed statement and the tables to what is to be done: which refusal, or which bound
//! statement.
#![tactic(auto)]

mod bound;
mod meaning;
mod reads;
mod selects;

pub use bound::{Bound, BoundRead, Limits};
pub use meaning::bind;
