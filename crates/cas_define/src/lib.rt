//! What CREATE TABLE and ALTER TABLE come to: the table that is made, the columns that are added, or
//! why the statement is refused.
#![tactic(auto)]

mod addition;
mod alter;
mod create;
mod limits;
mod parts;
mod schemas;

pub use addition::Addition;
pub use alter::bind_alter;
pub use create::bind_create;
pub use limits::{NAME_LIMIT, TABLE_LIMIT};
