//! The parser of CQL statements. It leaves all that hangs on a schema to the binder: which names there
//! are, which stand twice, which constants fit.
#![tactic(auto)]

pub mod fault;
pub mod lexeme;
mod parse;
mod select;
pub mod syntax;
pub mod term;

pub use cql_phrases::tokens_have_lexemes;
pub use cql_tables::{one_table, table_name};
pub use fault::ParseFault;
pub use parse::{line_statement, one_statement, statement};
pub use syntax::{
    AddedColumn, AlterTable, Assigned, Assignment, ColumnOrder, ColumnType, CreateTable,
    DefinedColumn, Delete, Insert, Item, NamedOption, Operator, OptionValue, Pick, Picks,
    PrimaryKey, Relation, Select, Statement, Suboption, TableName, TableOption, Target, Update,
    Use,
};
pub use term::{Constant, Element, Entry, Literal, Nested, Setting, Term};
