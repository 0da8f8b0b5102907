//! What CREATE TABLE and ALTER TABLE define can be written to the manifest and read back.
#![tactic(auto)]

mod laws;

pub use laws::{
    added_columns_fit, defined_columns_may_be_told, defined_tables_may_be_told, made_table_fits,
    named_segments_define_nothing, stated_columns_fit, stated_tables_fit, told_tables_are_tables,
};
