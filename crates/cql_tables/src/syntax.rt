//! What CREATE TABLE and ALTER TABLE say, in CQL's words. Names are lower-cased unless they were quoted.

use cas_types::{List, Text, TypeTag};
use cql_phrases::{Constant, Setting};

/// A table, perhaps with its keyspace before it.
#[derive(Drop)]
pub struct TableName {
    pub keyspace: Option<Text>,
    pub name: Text,
}

/// CREATE TABLE, its parts in the order in which they were written.
#[derive(Drop)]
pub struct CreateTable {
    pub table: TableName,
    pub items: List<Item>,
    pub options: List<TableOption>,
}

/// ALTER TABLE ADD.
#[derive(Drop)]
pub struct AlterTable {
    pub table: TableName,
    pub added: List<AddedColumn>,
}

/// What stands between the parentheses of a CREATE TABLE.
#[derive(Drop)]
pub enum Item {
    Column(DefinedColumn),
    PrimaryKey(PrimaryKey),
}

/// A column of a CREATE TABLE. Where it is the key, PRIMARY KEY stands after it.
#[derive(Drop)]
pub struct DefinedColumn {
    pub name: Text,
    pub column_type: ColumnType,
    pub is_static: bool,
    pub is_key: bool,
}

/// A column of an ALTER TABLE ADD.
#[derive(Drop)]
pub struct AddedColumn {
    pub name: Text,
    pub column_type: ColumnType,
    pub is_static: bool,
}

/// PRIMARY KEY: the columns of the partition key, then the clustering columns.
#[derive(Drop)]
pub struct PrimaryKey {
    pub partition: List<Text>,
    pub clustering: List<Text>,
}

/// The type of a column.
#[derive(Clone, Copy)]
pub enum ColumnType {
    One(TypeTag),
    SetOf(TypeTag),
    ListOf(TypeTag),
    MapOf(TypeTag, TypeTag),
}

/// What stands after WITH or AND.
#[derive(Drop)]
pub enum TableOption {
    Named(NamedOption),
    ClusteringOrder(List<ColumnOrder>),
}

/// An option with its value.
#[derive(Drop)]
pub struct NamedOption {
    pub name: Text,
    pub value: OptionValue,
}

/// The value of an option. A ratio is told in whole hundredths.
#[derive(Drop)]
pub enum OptionValue {
    Constant(Constant),
    Ratio(i128),
    Suboptions(List<Suboption>),
}

/// A key of an option's map with its value.
#[derive(Drop)]
pub struct Suboption {
    pub key: Setting,
    pub value: Setting,
}

/// A column of an ORDER BY.
#[derive(Drop)]
pub struct ColumnOrder {
    pub name: Text,
    pub descending: bool,
}
