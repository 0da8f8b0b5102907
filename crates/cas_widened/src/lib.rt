//! What a table's partitions, memtables and files may hold, they may hold when the table has got
//! columns.
#![tactic(auto)]

mod laws;

pub use laws::{contents_stay, memtables_stay, mutations_stay, orders_stay};
