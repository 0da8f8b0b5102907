//! Terms and their literals.

pub use cql_phrases::{Constant, Element, Entry, Literal, Nested, Setting, Term};
