//! What stands at the front of a text.

ghost use Rattle.std.specs.Prelude.{◌≡◌, ◌<◌, ◌≤◌, length, Some, IfSome};
ghost use Rattle.cql_lex.specs.Rules.{token, token_at, piece_at, begins_uuid, begins_number, whole_size, fraction_size, number_of_sizes};
ghost use Rattle.cql_lex.specs.Characters.{first_is};
ghost use Rattle.cql_lex.specs.Inner.Fronts.{is_plain};
ghost use Rattle.cql_lex.specs.Names.{IsPlainMarkAt};
ghost use Rattle.cql_lex.specs.Rules.{number_at, quoted_at, symbol, symbol_at, single_at};

use crate::characters::{
    begins_byte, begins_digit, begins_letter, begins_pair, begins_word, digits_size,
    hex_pairs_size, word_size,
};
use crate::closings::closing_size;
use crate::constants::{begins_blob, uuid_of};
use crate::gaps::gap_size;
use crate::numbers::{is_negative, number_of, unsigned};
use crate::piece::Piece;
use crate::token::{Mark, TokenKind};

#[inline(always)]
fn token(kind: TokenKind, size: usize) -> Option<Piece>
    ensures { result ≡ Some (token kind size) }
{
    Some(Piece {
        kind: Some(kind),
        size,
    })
}

/// Whether the text begins with a uuid that no letter, digit or `_` follows.
pub(crate) fn begins_uuid(text: &[u8]) -> bool
    ensures { result ≡ begins_uuid text.now }
{
    if text.len() < 36 {
        return false;
    }
    // This tells most texts without reading more of them.
    if text[8] != b'-' {
        return false;
    }
    let (front, rest) = text.split_at(36);
    uuid_of(front).is_some() && !begins_word(rest)
}

fn begins_number(text: &[u8]) -> bool
    ensures { result ≡ begins_number text.now }
{
    begins_digit(unsigned(text))
}

/// The size of the `-` and the digits that a number begins with.
#[tactic(auto, using(crate::proofs::Sizes::whole_within))]
fn whole_size(text: &[u8]) -> usize
    ensures size { result ≡ whole_size text.now }
    ensures within { result ≤ length text.now }
{
    if is_negative(text) {
        1 + digits_size(unsigned(text))
    } else {
        digits_size(unsigned(text))
    }
}

/// The size of a point and the one or two digits after it; 0 where there are none.
#[tactic(auto, using(crate::proofs::Sizes::fraction_within))]
fn fraction_size(text: &[u8]) -> usize
    ensures size { result ≡ fraction_size text.now }
    ensures within { result ≤ length text.now }
{
    match text {
        [point, digit, rest @ ..] if *point == b'.' && digit.is_ascii_digit() => {
            if begins_digit(rest) { 3 } else { 2 }
        }
        _ => 0,
    }
}

/// The number or ratio that the text begins with, unless it is refused.
#[inline(always)]
fn number_at(text: &[u8]) -> Option<Piece>
    ensures { result ≡ number_at text.now }
{
    let whole = whole_size(text);
    let fraction = fraction_size(&text[whole..]);
    if begins_word(&text[whole + fraction..]) {
        None
    } else if fraction > 0 {
        token(TokenKind::Ratio, whole + fraction)
    } else if number_of(&text[..whole]).is_some() {
        token(TokenKind::Number, whole)
    } else {
        None
    }
}

/// The text in quotes that begins the text, up to the closing one.
#[inline(always)]
fn quoted_at(kind: TokenKind, quote: u8, text: &[u8]) -> Option<Piece>
    ensures { result ≡ quoted_at kind quote text.now }
{
    match text {
        [_quote, rest @ ..] => match closing_size(quote, rest) {
            Some(size) => token(kind, 1 + size),
            None => None,
        },
        _ => None,
    }
}

#[inline(always)]
fn symbol(byte: u8) -> Option<Mark>
    ensures { result ≡ symbol byte }
{
    match byte {
        b'(' => Some(Mark::OpenParen),
        b')' => Some(Mark::CloseParen),
        b'[' => Some(Mark::OpenBracket),
        b']' => Some(Mark::CloseBracket),
        b'{' => Some(Mark::OpenBrace),
        b'}' => Some(Mark::CloseBrace),
        b'<' => Some(Mark::Less),
        b'>' => Some(Mark::Greater),
        b'=' => Some(Mark::Equals),
        b',' => Some(Mark::Comma),
        b';' => Some(Mark::Semicolon),
        b':' => Some(Mark::Colon),
        b'.' => Some(Mark::Dot),
        b'+' => Some(Mark::Plus),
        b'-' => Some(Mark::Minus),
        b'*' => Some(Mark::Star),
        _ => None,
    }
}

#[inline(always)]
fn single_at(text: &[u8]) -> Option<Piece>
    ensures { result ≡ single_at text.now }
{
    match text {
        [byte, _rest @ ..] => match symbol(*byte) {
            Some(mark) => token(TokenKind::Mark(mark), 1),
            None => None,
        },
        _ => None,
    }
}

#[inline(always)]
fn symbol_at(text: &[u8]) -> Option<Piece>
    ensures { result ≡ symbol_at text.now }
{
    if begins_pair(text, b'<', b'=') {
        token(TokenKind::Mark(Mark::AtMost), 2)
    } else if begins_pair(text, b'>', b'=') {
        token(TokenKind::Mark(Mark::AtLeast), 2)
    } else {
        single_at(text)
    }
}

/// Whether the text begins with one of `( ) * + ,`, which begin nothing longer.
fn begins_plain(text: &[u8]) -> bool
    ensures { result ≡ first_is is_plain text.now }
{
    match text {
        [byte, _rest @ ..] => b'(' <= *byte && *byte <= b',',
        _ => false,
    }
}

/// The mark that the text begins with, where it is one of `( ) * + ,`.
#[inline(always)]
pub fn plain_mark_at(text: &[u8]) -> Option<Mark>
    ensures { IfSome result (λ mark. IsPlainMarkAt text.now mark) }
{
    if !begins_plain(text) || begins_uuid(text) {
        return None;
    }
    match text {
        [byte, _rest @ ..] => symbol(*byte),
        _ => None,
    }
}

/// The token that the text begins with: the first rule that it begins as decides. What is most
/// frequent, a name or one of a few marks, is tried before what it can't begin as.
#[tactic(auto, unfolding(crate::specs::Rules::token_at), using(crate::proofs::Firsts::letter_first, crate::proofs::Firsts::plain_first))]
#[inline(always)]
fn token_at(text: &[u8]) -> Option<Piece>
    ensures { result ≡ token_at text.now }
{
    if begins_uuid(text) {
        token(TokenKind::Uuid, 36)
    } else if begins_letter(text) {
        token(TokenKind::Name, word_size(text))
    } else if begins_plain(text) {
        single_at(text)
    } else if begins_blob(text) {
        token(TokenKind::Blob, 2 + hex_pairs_size(&text[2..]))
    } else if begins_number(text) {
        number_at(text)
    } else if begins_byte(text, b'"') {
        quoted_at(TokenKind::QuotedName, b'"', text)
    } else if begins_byte(text, b'\'') {
        quoted_at(TokenKind::String, b'\'', text)
    } else {
        symbol_at(text)
    }
}

/// The blank, the comment or the token that the text begins with.
#[tactic(auto, unfolding(crate::specs::Rules::piece_at))]
#[inline(always)]
pub fn piece_at(text: &[u8]) -> Option<Piece>
    ensures piece { result ≡ piece_at text.now }
    ensures size { IfSome result (λ p. (0 < p.size) × (p.size ≤ length text.now)) }
{
    match gap_size(text) {
        Some(size) => Some(Piece { kind: None, size }),
        None => token_at(text),
    }
}
