//! What an INSERT, UPDATE or DELETE does to a partition, as effects on rows and columns: the atoms of
//! them at a timestamp, their values that are too large, and the refusals of statements.
#![tactic(auto)]

mod atoms;
mod effect;
mod laws;
mod reasons;
mod refusal;
mod stamped;
mod too_large;

pub use atoms::atoms_of;
pub use effect::{BoundWrite, Effect, Elements};
pub use laws::{list_places, mutations_fit, write_laws};
pub use reasons::{Reasons, either};
pub use refusal::{BindFault, Counted, NOT_HERE, Refusal, SYNTAX, TOO_LARGE, TOO_MANY};
pub use stamped::NUMBER_LIMIT;
pub use too_large::{any_too_large, one_too_large, write_too_large};
