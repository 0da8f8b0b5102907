//! What a token is to the grammar.

pub use cql_phrases::Lexeme;
