//! What CQL statements are made of: words, names, lists, constants, terms and literals, read from the
//! tokens of `cql_lex`.
#![tactic(auto)]

mod fault;
pub mod front;
mod keyword;
mod laws;
mod lexeme;
pub mod lexemes;
pub mod lists;
mod nested;
mod term;
pub mod terms;

pub use fault::ParseFault;
pub use keyword::Keyword;
pub use laws::tokens_have_lexemes;
pub use lexeme::Lexeme;
pub use term::{Constant, Element, Entry, Literal, Nested, Setting, Term};
