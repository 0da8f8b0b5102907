//! Texts in quotes.

ghost use Rattle.std.specs.Prelude.{◌≡◌, ◌≤◌, ◌==◌, IfOk, length, option_map};
ghost use Rattle.std.specs.List.{position_or_len};
ghost use Rattle.cql_lex.specs.Quotes.{quoted_text, name_quote, string_quote, closed};
ghost use Rattle.cql_lex.specs.Inner.Fronts.{closed_text};

use crate::texts::{text_in, text_of};
use cas_types::{Mem, Text};
use std::alloc::{AllocError, Global};

/// How many bytes stand before the first quote.
#[tactic(auto, using(crate::proofs::Sizes::plain_within))]
fn plain_size(quote: u8, text: &[u8]) -> usize
    ensures size { result ≡ position_or_len (λ c. c == quote) text.now }
    ensures within { result ≤ length text.now }
{
    text.iter().take_while(|byte| **byte != quote).count()
}

/// What follows an opening quote, up to its closing quote, where that is the end.
fn read_closed(alloc: Global, quote: u8, text: &[u8]) -> Result<Option<Vec<u8>>, AllocError>
    ensures { IfOk result (λ found. option_map (λ v. v.items) found ≡ closed quote text.now) }
{
    let mut inner = Vec::with_capacity(alloc, text.len())?;
    let mut at = plain_size(quote, text);
    inner.extend_from_slice(&text[..at])?;
    while at < text.len() {
        if text[at] != quote {
            inner.push(text[at])?;
            at += 1;
        } else if at + 1 < text.len() && text[at + 1] == quote {
            inner.push(quote)?;
            at += 2;
        } else if at + 1 == text.len() {
            return Ok(Some(inner));
        } else {
            return Ok(None);
        }
    }
    Ok(None)
}

/// The text that follows an opening quote, up to its closing quote. Most have no quote within.
#[inline(always)]
fn inner_text(alloc: Global, quote: u8, text: &[u8]) -> Result<Option<Text>, Mem>
    ensures { IfOk result (λ inner. inner ≡ closed_text quote text.now) }
{
    let plain = plain_size(quote, text);
    if plain + 1 == text.len() {
        return text_in(alloc, &text[..plain]);
    }
    match read_closed(alloc, quote, text)? {
        Some(bytes) => Ok(text_of(bytes)),
        None => Ok(None),
    }
}

#[inline(always)]
fn quoted_of(alloc: Global, quote: u8, text: &[u8]) -> Result<Option<Text>, Mem>
    ensures { IfOk result (λ inner. inner ≡ quoted_text quote text.now) }
{
    match text {
        [first, rest @ ..] if *first == quote => inner_text(alloc, quote, rest),
        _ => Ok(None),
    }
}

/// The name that a token's text writes in double quotes, where `""` is one of them. The text is
/// the bytes of the token's span; it is none where that isn't so written, or isn't UTF-8.
pub fn quoted_name_of(alloc: Global, text: &[u8]) -> Result<Option<Text>, Mem>
    ensures { IfOk result (λ name. name ≡ quoted_text name_quote text.now) }
{
    quoted_of(alloc, b'"', text)
}

/// The text that a token's text writes in single quotes, where `''` is one of them. The text is
/// the bytes of the token's span; it is none where that isn't so written, or isn't UTF-8.
#[inline(always)]
pub fn string_of(alloc: Global, text: &[u8]) -> Result<Option<Text>, Mem>
    ensures { IfOk result (λ string. string ≡ quoted_text string_quote text.now) }
{
    quoted_of(alloc, b'\'', text)
}
