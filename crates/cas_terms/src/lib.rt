//! Tables and columns by name, constants and literals as values and elements of columns, and which
//! of them fit.
#![tactic(auto)]

mod columns;
mod constants;
mod elements;
mod fitting;
mod laws;
mod names;
mod optional;
mod terms;

pub use columns::{
    column_named, column_ref, is_local, is_unknown, located, names_key, names_partition,
    names_static, table_named,
};
pub use constants::{Spelled, constant_bytes, fits, is_in_range, spell};
pub use elements::{
    entry_elements, given_elements, prepended_elements, removed_elements, whole_elements,
};
pub use fitting::{assigned_fits, key_fits, term_fits};
pub use laws::terms_have_their_types;
pub use names::{has_name, same_name, stands_twice};
pub use optional::push_some;
pub use terms::{has_empty_value, has_value, spell_term, term_value};
