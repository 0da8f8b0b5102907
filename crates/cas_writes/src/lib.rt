//! What an INSERT, UPDATE or DELETE comes to: the partition that it changes, and what it does to rows and
//! columns; or why it is refused.
#![tactic(auto)]

mod effects;
mod inserts;
mod laws;
mod unbound;
mod writes;

pub use laws::changes_its_names;
pub use writes::bind_change;
