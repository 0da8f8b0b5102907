//! INSERT, UPDATE and DELETE, by the grammar alone, with the clauses that SELECT shares with them:
//! USING, and the restrictions of a WHERE.
#![tactic(auto)]

pub mod changes;
mod clauses;
pub mod syntax;

pub use syntax::{Assigned, Assignment, Delete, Insert, Operator, Relation, Target, Update, Use};
