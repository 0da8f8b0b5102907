//! What INSERT, UPDATE, DELETE and SELECT say of columns: what each is given or asked, whether that is of
//! its type, and whether something is changed twice.
#![tactic(auto)]

mod change;
mod entries;
mod fitting;
mod parts;
mod twice;

pub use change::RowChange;
pub use fitting::uses_another_type;
pub use parts::{has_other_count, picked_name, picks_in, relations_of, shown_by};
pub use twice::{changes_twice, named_twice};
