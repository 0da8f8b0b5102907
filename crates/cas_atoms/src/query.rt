//! Questions to one partition, and the rows that answer them.

use cas_bounds::Slice;
use cas_types::{Bytes, Column, List, TypeTag};

/// What a `SELECT` asks of a column, which it names by number.
#[derive(Clone, Copy)]
pub enum Pick {
    Value(u16),
    WriteTime(u16),
    Ttl(u16),
}

/// A question to one partition: the table with its columns, the partition key, the slice of its
/// rows, whether they are wanted in the reverse of the table's order, how many at most, and what of
/// each.
#[derive(Drop)]
pub struct Query {
    pub table: u16,
    pub columns: List<Column>,
    pub key: Bytes,
    pub slice: Slice,
    pub reversed: bool,
    pub limit: Option<u32>,
    pub picks: List<Pick>,
}

/// One value of a row, as a reply shows it: `null`, a timestamp or a number of seconds, a value
/// of a type, or a collection with the types of its elements.
#[derive(Drop)]
pub enum Datum {
    Null,
    Number(i64),
    One(TypeTag, Bytes),
    Set(TypeTag, List<Bytes>),
    List(TypeTag, List<Bytes>),
    Map(TypeTag, TypeTag, List<(Bytes, Bytes)>),
}

/// A row of an answer: a value for each pick.
#[derive(Drop)]
pub struct LiveRow {
    pub values: List<Datum>,
}
