//! Terms and their literals.

use cas_types::{Bytes, List, Text};

/// A constant.
#[derive(Drop)]
pub enum Constant {
    Text(Text),
    Number(i128),
    Blob(Bytes),
    Uuid([u8; 16]),
    Boolean(bool),
}

/// What a column is given, or compared with.
#[derive(Drop)]
pub enum Term {
    Null,
    Constant(Constant),
    Literal(Literal),
}

/// The literal of a collection. `{}` is an empty set or an empty map by its column.
#[derive(Drop)]
pub enum Literal {
    Braces,
    SetOf(List<Element>),
    ListOf(List<Element>),
    MapOf(List<Entry>),
}

/// A term within a literal. A literal there is told by its span in the source, which is from the
/// first byte of its opening bracket to after its closing one.
#[derive(Drop)]
pub enum Element {
    Null,
    Constant(Constant),
    Nested(Nested),
}

/// The span of a literal within a literal.
#[derive(Clone, Copy)]
pub struct Nested {
    pub start: usize,
    pub end: usize,
}

/// A key of a map's literal with its value.
#[derive(Drop)]
pub struct Entry {
    pub key: Element,
    pub value: Element,
}

/// A key or a value in the map of an option. A ratio is told in whole hundredths.
#[derive(Drop)]
pub enum Setting {
    Text(Text),
    Number(i128),
    Ratio(i128),
}
