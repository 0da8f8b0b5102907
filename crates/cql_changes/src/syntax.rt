//! What INSERT, UPDATE and DELETE say, with USING and WHERE, in CQL's words. Names are lower-cased
//! unless they were quoted.

use cas_types::{List, Text};
use cql_phrases::{Constant, Literal, Term};
use cql_tables::TableName;

/// INSERT.
#[derive(Drop)]
pub struct Insert {
    pub table: TableName,
    pub columns: List<Text>,
    pub values: List<Term>,
    pub uses: List<Use>,
}

/// What stands after USING or AND.
#[derive(Clone, Copy)]
pub enum Use {
    Timestamp(i128),
    Ttl(i128),
}

/// UPDATE.
#[derive(Drop)]
pub struct Update {
    pub table: TableName,
    pub uses: List<Use>,
    pub assignments: List<Assignment>,
    pub relations: List<Relation>,
}

/// An assignment of an UPDATE to a column.
#[derive(Drop)]
pub struct Assignment {
    pub column: Text,
    pub value: Assigned,
}

/// What a column is assigned. The name in an append, a prepend or a removal is the one to the right
/// of the equals sign.
#[derive(Drop)]
pub enum Assigned {
    Whole(Term),
    Append(Text, Literal),
    Prepend(Literal, Text),
    Remove(Text, Literal),
    Entry(Constant, Term),
}

/// DELETE. Without targets it deletes rows.
#[derive(Drop)]
pub struct Delete {
    pub targets: List<Target>,
    pub table: TableName,
    pub timestamp: Option<i128>,
    pub relations: List<Relation>,
}

/// A column that is deleted, or one entry of it.
#[derive(Drop)]
pub struct Target {
    pub column: Text,
    pub key: Option<Constant>,
}

/// A restriction of a WHERE.
#[derive(Drop)]
pub struct Relation {
    pub column: Text,
    pub operator: Operator,
    pub value: Term,
}

/// How a restricted column compares with its term.
#[derive(Clone, Copy)]
pub enum Operator {
    Equal,
    Less,
    AtMost,
    Greater,
    AtLeast,
}
