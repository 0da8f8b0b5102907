//! Tokens as the grammar sees them.

ghost use Rattle.std.specs.Prelude.{◌≡◌, ◌+◌, ◌<◌, ◌≤◌, List, length, drop, option_map, []};
ghost use Rattle.std.specs.Prelude.{◌∷◌, ◌++◌, slice_range, Option, None, Err, IfOk, IfErr, OnOk};
ghost use Rattle.cql_lex.specs.Quotes.{quoted_text, name_quote, string_quote};
ghost use Rattle.cql_lex.specs.Constants.{name_value, blob_value};
ghost use Rattle.cql_phrases.specs.Inner.Reading.{Gives};
ghost use Rattle.cql_lex.specs.Laws.{HasForm};
ghost use Rattle.cql_lex.specs.Lexes.{IsRefused};
ghost use Rattle.cql_lex.specs.Rules.{piece_at};
ghost use Rattle.cql_phrases.specs.Inner.Adding.{IsAdded, IsPieceAdded, IsNextAdded, HasItsForm};
ghost use Rattle.cql_phrases.specs.Lexemes.{mark_lexeme, lexeme_of, lexeme_at, lexemes_of, AreLexemes};
ghost use Rattle.cql_phrases.specs.declared.fault.ParseFault.TheVariants as faults;
ghost use Rattle.cql_phrases.specs.declared.lexeme.Lexeme.TheVariants as lexemes;

use crate::fault::ParseFault;
use crate::lexeme::Lexeme;
use cql_lex::{
    Mark, Piece, Token, TokenKind, blob_of, name_in, name_of, number_of, piece_at, plain_mark_at,
    quoted_name_of, ratio_of, short_name_at, string_of, uuid_of,
};
use std::alloc::Global;

fn word(alloc: Global, text: &[u8]) -> Result<Lexeme, ParseFault>
    ensures { Gives (λ x. x) result (option_map lexemes.Word (name_value text.now)) }
{
    match name_of(alloc, text)? {
        Some(name) => Ok(Lexeme::Word(name)),
        None => Err(ParseFault::Syntax),
    }
}

fn quoted(alloc: Global, text: &[u8]) -> Result<Lexeme, ParseFault>
    ensures { Gives (λ x. x) result (option_map lexemes.Quoted (quoted_text name_quote text.now)) }
{
    match quoted_name_of(alloc, text)? {
        Some(name) => Ok(Lexeme::Quoted(name)),
        None => Err(ParseFault::Syntax),
    }
}

#[inline(always)]
fn string(alloc: Global, text: &[u8]) -> Result<Lexeme, ParseFault>
    ensures { Gives (λ x. x) result (option_map lexemes.Text (quoted_text string_quote text.now)) }
{
    match string_of(alloc, text)? {
        Some(string) => Ok(Lexeme::Text(string)),
        None => Err(ParseFault::Syntax),
    }
}

fn blob(alloc: Global, text: &[u8]) -> Result<Lexeme, ParseFault>
    ensures { Gives (λ x. x) result (option_map lexemes.Blob (blob_value text.now)) }
{
    match blob_of(alloc, text)? {
        Some(bytes) => Ok(Lexeme::Blob(bytes)),
        None => Err(ParseFault::Syntax),
    }
}

#[inline(always)]
fn mark_lexeme(mark: Mark, start: usize, end: usize) -> Lexeme
    ensures { result ≡ mark_lexeme mark start end }
{
    match mark {
        Mark::OpenBracket => Lexeme::OpenBracket(start),
        Mark::CloseBracket => Lexeme::CloseBracket(end),
        Mark::OpenBrace => Lexeme::OpenBrace(start),
        Mark::CloseBrace => Lexeme::CloseBrace(end),
        other => Lexeme::Mark(other),
    }
}

#[tactic(auto, unfolding(crate::specs::Lexemes::lexeme_of))]
#[inline(always)]
fn lexeme(alloc: Global, token: Token, text: &[u8]) -> Result<Lexeme, ParseFault>
    ensures { Gives (λ x. x) result (lexeme_of token.kind token.start token.end text.now) }
{
    match token.kind {
        TokenKind::Name => word(alloc, text),
        TokenKind::QuotedName => quoted(alloc, text),
        TokenKind::String => string(alloc, text),
        TokenKind::Blob => blob(alloc, text),
        TokenKind::Uuid => Ok(Lexeme::Uuid(uuid_of(text).ok_or(ParseFault::Syntax)?)),
        TokenKind::Number => Ok(Lexeme::Number(number_of(text).ok_or(ParseFault::Syntax)?)),
        TokenKind::Ratio => Ok(Lexeme::Ratio(ratio_of(text).ok_or(ParseFault::Syntax)?)),
        TokenKind::Mark(mark) => Ok(mark_lexeme(mark, token.start, token.end)),
    }
}

#[tactic(auto, unfolding(crate::specs::Lexemes::lexeme_at))]
fn lexeme_at(alloc: Global, token: Token, source: &[u8]) -> Result<Lexeme, ParseFault>
    ensures { Gives (λ x. x) result (lexeme_at source.now token) }
{
    if token.start <= token.end && token.end <= source.len() {
        lexeme(alloc, token, &source[token.start..token.end])
    } else {
        Err(ParseFault::Syntax)
    }
}

/// The tokens of a source, each with its meaning.
pub fn lexemes(alloc: Global, tokens: &[Token], source: &[u8]) -> Result<Vec<Lexeme>, ParseFault>
    ensures { Gives (λ v. v.items) result (lexemes_of source.now tokens.now) }
{
    let mut found = Vec::with_capacity(alloc, tokens.len())?;
    let mut rest = tokens;
    while let Some((token, left)) = rest.split_first() {
        found.push(lexeme_at(alloc, *token, source)?)?;
        rest = left;
    }
    Ok(found)
}

/// Room for the lexemes of most lines, a little less than 1024 bytes.
const USUAL: usize = 21;

#[inline(always)]
fn push(found: &mut Vec<Lexeme>, lexeme: Lexeme) -> Result<(), ParseFault>
    ensures ok { OnOk result (found.new.items ≡ found.old.items ++ lexeme ∷ []) }
    ensures err { IfErr result (λ e. e ≡ faults.Mem) }
{
    found.push(lexeme)?;
    Ok(())
}

/// Adds what a token of any kind is to the grammar, whose text this is.
fn add_any(
    alloc: Global,
    found: &mut Vec<Lexeme>,
    token: Token,
    text: &[u8],
) -> Result<(), ParseFault>
    requires { HasForm token.kind text.now }
    ensures ok { OnOk result (IsAdded (lexeme_of token.kind token.start token.end text.now) found.old.items found.new.items) }
    ensures err { IfErr result (λ e. e ≡ faults.Mem) }
{
    let lexeme = lexeme(alloc, token, text)?;
    push(found, lexeme)
}

/// Adds what a token is to the grammar, whose text this is. A mark or a word, as most tokens are, is
/// put where it stands at once.
#[tactic(auto, unfolding(crate::specs::Lexemes::lexeme_of))]
#[inline(always)]
fn add_token(
    alloc: Global,
    found: &mut Vec<Lexeme>,
    token: Token,
    text: &[u8],
) -> Result<(), ParseFault>
    requires { HasForm token.kind text.now }
    ensures ok { OnOk result (IsAdded (lexeme_of token.kind token.start token.end text.now) found.old.items found.new.items) }
    ensures err { IfErr result (λ e. e ≡ faults.Mem) }
{
    match token.kind {
        TokenKind::Mark(mark) => push(found, mark_lexeme(mark, token.start, token.end)),
        TokenKind::Name => push(found, Lexeme::Word(name_in(alloc, text)?)),
        _ => add_any(alloc, found, token, text),
    }
}

/// Adds what a piece of the source is to the grammar, which stands from this place on: of a blank or
/// a comment nothing.
#[inline(always)]
fn add_piece(
    alloc: Global,
    found: &mut Vec<Lexeme>,
    source: &[u8],
    from: usize,
    piece: Piece,
) -> Result<(), ParseFault>
    requires within { from + piece.size ≤ length source.now }
    requires form { HasItsForm source.now from piece }
    ensures ok { OnOk result (IsPieceAdded source.now from piece.kind piece.size found.old.items found.new.items) }
    ensures err { IfErr result (λ e. e ≡ faults.Mem) }
{
    match piece.kind {
        Some(kind) => {
            let start = from;
            let end = from + piece.size;
            add_token(alloc, found, Token { kind, start, end }, &source[from..end])
        }
        None => Ok(()),
    }
}

/// Adds what the piece at this place of the source is to the grammar, and tells its size. A short name and
/// one of the frequent marks are added at once.
#[inline(always)]
fn add_next(
    alloc: Global,
    found: &mut Vec<Lexeme>,
    source: &str,
    at: usize,
) -> Result<usize, ParseFault>
    requires { at < length source.now }
    ensures ok { IfOk result (λ size. IsNextAdded source.now at size found.old.items found.new.items) }
    ensures refused { result ≡ Err faults.Syntax → piece_at (drop at source.now) ≡ None }
{
    let bytes = source.as_bytes();
    let rest = &bytes[at..];
    if let Some(name) = short_name_at(rest) {
        let size = name.len();
        push(found, Lexeme::Word(name))?;
        return Ok(size);
    }
    if let Some(mark) = plain_mark_at(rest) {
        push(found, Lexeme::Mark(mark))?;
        return Ok(1);
    }
    let Some(piece) = piece_at(rest) else {
        return Err(ParseFault::Syntax);
    };
    add_piece(alloc, found, bytes, at, piece)?;
    Ok(piece.size)
}

/// What the tokens of a line are to the grammar.
pub fn line_lexemes(alloc: Global, source: &str) -> Result<Vec<Lexeme>, ParseFault>
    // They are those of its tokens,
    ensures found { IfOk result (λ found. AreLexemes source.now found.items) }
    // and where there are none, it has no tokens.
    ensures refused { result ≡ Err faults.Syntax → IsRefused source.now }
{
    let mut found = Vec::with_capacity(alloc, USUAL)?;
    let mut at = 0;
    while at < source.len() {
        at += add_next(alloc, &mut found, source, at)?;
    }
    Ok(found)
}
