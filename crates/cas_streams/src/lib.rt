//! A partition as a stream of fragments in the order of their places: what sources of them promise,
//! and what a stream's atoms are.
#![tactic(auto)]

mod fragment;
mod laws;
mod part;
mod source;

pub use fragment::Fragment;
pub use laws::{
    cut_is_well_formed, cut_keeps_the_slice, merge_by_places, merge_invents_nothing, merge_is_join,
    merge_is_merged, merge_is_well_formed, rows_say_all, same_by_rows, same_writes_alike,
};
pub use part::Part;
pub use source::FragmentSource;
