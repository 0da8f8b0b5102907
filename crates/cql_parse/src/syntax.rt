//! What a statement says, in CQL's words. Names are lower-cased unless they were quoted.

use cas_types::{Bytes, List, Text};
pub use cql_changes::{
    Assigned, Assignment, Delete, Insert, Operator, Relation, Target, Update, Use,
};
pub use cql_tables::{
    AddedColumn, AlterTable, ColumnOrder, ColumnType, CreateTable, DefinedColumn, Item,
    NamedOption, OptionValue, PrimaryKey, Suboption, TableName, TableOption,
};

/// A statement.
#[derive(Drop)]
pub enum Statement {
    Create(CreateTable),
    Alter(AlterTable),
    Insert(Insert),
    Update(Update),
    Delete(Delete),
    Select(Select),
}

/// SELECT. Without WHERE it has no relations, without ORDER BY no order.
#[derive(Drop)]
pub struct Select {
    pub picks: Picks,
    pub table: TableName,
    pub relations: List<Relation>,
    pub order: List<ColumnOrder>,
    pub after: Option<Bytes>,
    pub page: Option<i128>,
    pub limit: Option<i128>,
}

/// What a SELECT shows.
#[derive(Drop)]
pub enum Picks {
    All,
    These(List<Pick>),
}

/// One column of a SELECT.
#[derive(Drop)]
pub enum Pick {
    Value(Text),
    WriteTime(Text),
    Ttl(Text),
}
