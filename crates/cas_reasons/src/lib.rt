//! Which rows INSERT, UPDATE, DELETE and SELECT are of, which names and numbers they use, and why they
//! are refused.
#![tactic(auto)]

mod extents;
mod inserts;
mod row_reasons;
mod statements;
mod using;

pub use cas_mentions::RowChange;
pub use extents::inserts_static;
pub use inserts::is_plain_insert;
pub use row_reasons::row_refusal;
pub use statements::key_terms_of;
pub use using::{row_limit, stated_timestamp, stated_ttl, timestamp_in_range, ttl_or};
