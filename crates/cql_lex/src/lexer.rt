//! The tokens of a line.

ghost use Rattle.std.specs.Prelude.{◌≡◌, ◌+◌, ◌<◌, ◌^◌, ◌++◌, IfOk, IfErr, OnOk, Err};
ghost use Rattle.cql_lex.specs.declared.fault.LexFault.TheVariants as faults;
ghost use Rattle.cql_lex.specs.Lexes.{Lexes, IsRefused, token_of};
ghost use Rattle.cql_lex.specs.Laws.{ArePlaced};

use crate::fault::LexFault;
use crate::piece::Piece;
use crate::rules::piece_at;
use crate::token::Token;
use std::alloc::Global;

/// Room for the tokens of most lines.
const USUAL: usize = 32;

/// Adds the token that a piece is, which stands from this place on.
fn add(found: &mut Vec<Token>, from: usize, piece: Piece) -> Result<(), LexFault>
    requires { from + piece.size < 2 ^ 64 }
    ensures ok { OnOk result (found.new.items ≡ found.old.items ++ token_of from piece.kind piece.size) }
    ensures err { IfErr result (λ e. e ≡ faults.Mem) }
{
    match piece.kind {
        Some(kind) => {
            found.push(Token {
                kind,
                start: from,
                end: from + piece.size,
            })?;
            Ok(())
        }
        None => Ok(()),
    }
}

/// The tokens of one line. Their spans ascend within it; a token's text is its span of the source.
pub fn tokens(alloc: Global, source: &str) -> Result<Vec<Token>, LexFault>
    // The tokens are those that the rules give,
    ensures lexed { IfOk result (λ tokens. Lexes source.now tokens.items) }
    // and where there are none, the rules give none.
    ensures refused { result ≡ Err faults.Syntax → IsRefused source.now }
    // Their spans ascend, each text is one of its kind, and the longest one there.
    ensures placed { IfOk result (λ tokens. ArePlaced source.now tokens.items) }
{
    let bytes = source.as_bytes();
    let mut found = Vec::with_capacity(alloc, USUAL)?;
    let mut at = 0;
    while at < bytes.len() {
        let Some(piece) = piece_at(&bytes[at..]) else {
            return Err(LexFault::Syntax);
        };
        add(&mut found, at, piece)?;
        at += piece.size;
    }
    Ok(found)
}
