//! Tokens, each with the span that it stands in.

/// A mark of one or two characters.
#[derive(Clone, Copy)]
pub enum Mark {
    AtMost,
    AtLeast,
    OpenParen,
    CloseParen,
    OpenBracket,
    CloseBracket,
    OpenBrace,
    CloseBrace,
    Less,
    Greater,
    Equals,
    Comma,
    Semicolon,
    Colon,
    Dot,
    Plus,
    Minus,
    Star,
}

/// What kind of token a span of a statement is.
#[derive(Clone, Copy)]
pub enum TokenKind {
    Uuid,
    Blob,
    Number,
    Ratio,
    Name,
    QuotedName,
    String,
    Mark(Mark),
}

/// A token: its kind, and the span of the source that it stands in, in bytes.
#[derive(Clone, Copy)]
pub struct Token {
    pub kind: TokenKind,
    pub start: usize,
    pub end: usize,
}
