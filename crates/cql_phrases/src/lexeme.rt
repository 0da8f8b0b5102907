//! What a token is to the grammar.

use cas_types::{Bytes, Text};
use cql_lex::{Mark, Name};

/// What a token is to the grammar. The brackets of literals know their place in the source: an
/// opening one its first byte, a closing one the byte after it.
#[derive(Drop)]
pub enum Lexeme {
    /// A word, or a name without quotes.
    Word(Name),
    Quoted(Text),
    Text(Text),
    Number(i128),
    Ratio(i128),
    Blob(Bytes),
    Uuid([u8; 16]),
    Mark(Mark),
    OpenBracket(usize),
    CloseBracket(usize),
    OpenBrace(usize),
    CloseBrace(usize),
}
