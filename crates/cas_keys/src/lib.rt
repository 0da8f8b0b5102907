//! What a statement's WHERE, or an INSERT's values, give the primary key: the partition, the clustering
//! values, and what is wrong with them.
#![tactic(auto)]

mod key_terms;
mod keys;
mod laws;

pub use key_terms::{
    KeyTerms, first_missing, is_equal, is_given_bytes, partition_key, prefix_values,
    sole_clustering, sole_column, value_in,
};
pub use keys::{
    compares_key_with_null, is_given_empty, lacks_clustering, lacks_partition, restricts_to_empty,
};
pub use laws::keys_read_back;
