//! What CQL says of tables: their names, CREATE TABLE and ALTER TABLE, read from the lexemes of
//! `cql_phrases`.
#![tactic(auto)]

pub mod clauses;
pub mod define;
mod syntax;
mod table_words;

pub use syntax::{
    AddedColumn, AlterTable, ColumnOrder, ColumnType, CreateTable, DefinedColumn, Item,
    NamedOption, OptionValue, PrimaryKey, Suboption, TableName, TableOption,
};
pub use table_words::{one_table, table_name};
