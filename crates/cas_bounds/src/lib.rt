//! The order of a partition's rows, and the cuts between them. A cut stands before or after all
//! clusterings that begin with some values, and a slice is what lies between two cuts.
#![tactic(auto)]

mod cuts;
mod laws;
mod map_key;
mod order;
mod row_order;
mod values;

pub use cuts::{Clustering, Cut, Slice, between, cmp_cut, inside};
pub use laws::{cut_orders, cuts_divide_rows, keys_are_points, own_places, point_laws, row_orders};
pub use map_key::{End, MapKey, compare_points};
pub use order::{Ordered, clustering_order, compare_values};
pub use row_order::RowOrder;
pub use values::Values;
