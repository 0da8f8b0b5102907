//! Which restrictions a WHERE may have, the slice of rows that it makes, and whether an ORDER BY is the
//! table's. The terms and keys of `cas_keys` are passed on.
#![tactic(auto)]

mod laws;
mod operators;
mod orders;
mod restrictions;
mod slices;

pub use cas_keys::{
    KeyTerms, compares_key_with_null, is_given_empty, lacks_clustering, lacks_partition,
    partition_key, prefix_values, restricts_to_empty, sole_column,
};
pub use laws::slice_law;
pub use orders::follows_order;
pub use restrictions::{Extent, is_clustering_fixed, is_clustering_free, restricts};
pub use slices::slice_of;
