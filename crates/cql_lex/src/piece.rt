//! What a line is cut into.

use crate::token::TokenKind;

/// What stands at one place of a line: a token of a kind, or a blank or a comment, and its size in
/// bytes.
#[derive(Clone, Copy)]
pub struct Piece {
    pub kind: Option<TokenKind>,
    pub size: usize,
}
