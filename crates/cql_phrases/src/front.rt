//! One word, mark or name at the front of the lexemes.

ghost use Rattle.std.specs.Prelude.{◌≡◌, ◌==◌, option_map};
ghost use Rattle.std.specs.Str.{bytes_eq};
ghost use Rattle.std.specs.List.{list_any};
ghost use Rattle.cql_phrases.specs.Symbols.{is_reserved, spelling};
ghost use Rattle.cql_phrases.specs.Inner.Reading.{Gives, place, after_word, after_mark, after_close_brace, after_open_bracket, after_close_bracket};
ghost use Rattle.cql_phrases.specs.Inner.Reading.{name_at, whole_number_at, blob_at, word_at, mark_at, close_brace_at, close_bracket_at};
ghost use Rattle.cql_phrases.specs.Inner.Reading.{number_behind, blob_behind, flag_at};

use crate::fault::ParseFault;
use crate::keyword::{Keyword, spelling};
use crate::lexeme::Lexeme;
use cas_types::{Bytes, Text};
use cql_lex::{Mark, Name};
use std::alloc::Global;

/// Whether the name is the word.
#[inline(always)]
pub fn is_spelt(name: &Name, keyword: Keyword) -> bool
    ensures { result ≡ bytes_eq name.now (spelling keyword) }
{
    name.is(spelling(keyword))
}

fn is_one_of(name: &Name, words: &[Keyword]) -> bool
    ensures { result ≡ list_any (λ k. bytes_eq name.now (spelling k)) words.now }
{
    words.iter().any(|k| is_spelt(name, *k))
}

const RESERVED_OF_2: [Keyword; 3] = [Keyword::By, Keyword::In, Keyword::To];

const RESERVED_OF_3: [Keyword; 4] = [Keyword::Add, Keyword::And, Keyword::Asc, Keyword::Set];

const RESERVED_OF_4: [Keyword; 6] = [
    Keyword::Desc,
    Keyword::From,
    Keyword::Into,
    Keyword::Null,
    Keyword::True,
    Keyword::With,
];

const RESERVED_OF_5: [Keyword; 7] = [
    Keyword::Alter,
    Keyword::False,
    Keyword::Limit,
    Keyword::Order,
    Keyword::Table,
    Keyword::Using,
    Keyword::Where,
];

const RESERVED_OF_6: [Keyword; 5] = [
    Keyword::Create,
    Keyword::Delete,
    Keyword::Insert,
    Keyword::Select,
    Keyword::Update,
];

/// Whether the name is a reserved word, which is no name unless it is quoted: only words of its
/// length are compared with it.
pub fn is_reserved(name: &Name) -> bool
    ensures { result ≡ is_reserved name.now }
{
    match name.len() {
        2 => is_one_of(name, &RESERVED_OF_2),
        3 => is_one_of(name, &RESERVED_OF_3),
        4 => is_one_of(name, &RESERVED_OF_4),
        5 => is_one_of(name, &RESERVED_OF_5),
        6 => is_one_of(name, &RESERVED_OF_6),
        7 => is_one_of(name, &[Keyword::Primary]),
        _ => false,
    }
}

/// What follows the word, where it stands first.
#[tactic(auto, unfolding(crate::specs::Inner::Reading::after_word))]
#[inline(always)]
pub fn after_word(input: &[Lexeme], keyword: Keyword) -> Option<&[Lexeme]>
    ensures { option_map (λ r. r.now) result ≡ after_word keyword input.now }
{
    match input {
        [Lexeme::Word(name), rest @ ..] => {
            if is_spelt(name, keyword) {
                Some(rest)
            } else {
                None
            }
        }
        _ => None,
    }
}

#[tactic(auto, unfolding(crate::specs::Inner::Reading::place))]
fn place(mark: Mark) -> u8
    ensures { result ≡ place mark }
{
    mark as u8
}

fn is_same(a: Mark, b: Mark) -> bool
    ensures { result ≡ (place a == place b) }
{
    place(a) == place(b)
}

/// What follows the mark, where it stands first.
#[tactic(auto, unfolding(crate::specs::Inner::Reading::after_mark))]
#[inline(always)]
pub fn after_mark(input: &[Lexeme], mark: Mark) -> Option<&[Lexeme]>
    ensures { option_map (λ r. r.now) result ≡ after_mark mark input.now }
{
    match input {
        [Lexeme::Mark(m), rest @ ..] => { if is_same(*m, mark) { Some(rest) } else { None } }
        _ => None,
    }
}

/// The word, which must stand here.
#[inline(always)]
pub fn word(input: &[Lexeme], keyword: Keyword) -> Result<&[Lexeme], ParseFault>
    ensures { Gives (λ r. (tt, r.now)) result (word_at keyword input.now) }
{
    match after_word(input, keyword) {
        Some(rest) => Ok(rest),
        None => Err(ParseFault::Syntax),
    }
}

/// The mark, which must stand here.
#[inline(always)]
pub fn mark(input: &[Lexeme], mark: Mark) -> Result<&[Lexeme], ParseFault>
    ensures { Gives (λ r. (tt, r.now)) result (mark_at mark input.now) }
{
    match after_mark(input, mark) {
        Some(rest) => Ok(rest),
        None => Err(ParseFault::Syntax),
    }
}

/// A name: a word that isn't reserved, or anything in quotes.
#[tactic(auto, unfolding(crate::specs::Inner::Reading::name_at))]
pub fn name(alloc: Global, input: &[Lexeme]) -> Result<(Text, &[Lexeme]), ParseFault>
    ensures { Gives (λ x. (x.0, x.1.now)) result (name_at input.now) }
{
    match input {
        [Lexeme::Word(name), rest @ ..] => {
            if is_reserved(name) {
                return Err(ParseFault::Syntax);
            }
            Ok((name.text(alloc)?, rest))
        }
        [Lexeme::Quoted(text), rest @ ..] => Ok((text.clone()?, rest)),
        _ => Err(ParseFault::Syntax),
    }
}

/// What follows a closing brace, where it stands first.
#[tactic(auto, unfolding(crate::specs::Inner::Reading::after_close_brace))]
pub fn after_close_brace(input: &[Lexeme]) -> Option<&[Lexeme]>
    ensures { option_map (λ r. r.now) result ≡ after_close_brace input.now }
{
    match input {
        [Lexeme::CloseBrace(_at), rest @ ..] => Some(rest),
        _ => None,
    }
}

/// What follows an opening bracket, where it stands first.
#[tactic(auto, unfolding(crate::specs::Inner::Reading::after_open_bracket))]
pub fn after_open_bracket(input: &[Lexeme]) -> Option<&[Lexeme]>
    ensures { option_map (λ r. r.now) result ≡ after_open_bracket input.now }
{
    match input {
        [Lexeme::OpenBracket(_at), rest @ ..] => Some(rest),
        _ => None,
    }
}

/// What follows a closing bracket, where it stands first.
#[tactic(auto, unfolding(crate::specs::Inner::Reading::after_close_bracket))]
pub fn after_close_bracket(input: &[Lexeme]) -> Option<&[Lexeme]>
    ensures { option_map (λ r. r.now) result ≡ after_close_bracket input.now }
{
    match input {
        [Lexeme::CloseBracket(_at), rest @ ..] => Some(rest),
        _ => None,
    }
}

/// A closing brace, which must stand here.
pub fn close_brace(input: &[Lexeme]) -> Result<&[Lexeme], ParseFault>
    ensures { Gives (λ r. (tt, r.now)) result (close_brace_at input.now) }
{
    match after_close_brace(input) {
        Some(rest) => Ok(rest),
        None => Err(ParseFault::Syntax),
    }
}

/// A closing bracket, which must stand here.
pub fn close_bracket(input: &[Lexeme]) -> Result<&[Lexeme], ParseFault>
    ensures { Gives (λ r. (tt, r.now)) result (close_bracket_at input.now) }
{
    match after_close_bracket(input) {
        Some(rest) => Ok(rest),
        None => Err(ParseFault::Syntax),
    }
}

/// A number.
#[tactic(auto, unfolding(crate::specs::Inner::Reading::whole_number_at))]
pub fn number(input: &[Lexeme]) -> Result<(i128, &[Lexeme]), ParseFault>
    ensures { Gives (λ x. (x.0, x.1.now)) result (whole_number_at input.now) }
{
    match input {
        [Lexeme::Number(n), rest @ ..] => Ok((*n, rest)),
        _ => Err(ParseFault::Syntax),
    }
}

/// A blob.
#[tactic(auto, unfolding(crate::specs::Inner::Reading::blob_at))]
pub fn blob(alloc: Global, input: &[Lexeme]) -> Result<(Bytes, &[Lexeme]), ParseFault>
    ensures { Gives (λ x. (x.0, x.1.now)) result (blob_at input.now) }
{
    match input {
        [Lexeme::Blob(bytes), rest @ ..] => Ok((bytes.clone()?, rest)),
        _ => Err(ParseFault::Syntax),
    }
}

/// A number after a word, or none.
#[tactic(auto, unfolding(crate::specs::Inner::Reading::number_behind))]
pub fn number_behind(
    input: &[Lexeme],
    keyword: Keyword,
) -> Result<(Option<i128>, &[Lexeme]), ParseFault>
    ensures { Gives (λ x. (x.0, x.1.now)) result (number_behind keyword input.now) }
{
    match after_word(input, keyword) {
        Some(rest) => {
            let (n, rest) = number(rest)?;
            Ok((Some(n), rest))
        }
        None => Ok((None, input)),
    }
}

/// A blob after a word, or none.
#[tactic(auto, unfolding(crate::specs::Inner::Reading::blob_behind))]
pub fn blob_behind(
    alloc: Global,
    input: &[Lexeme],
    keyword: Keyword,
) -> Result<(Option<Bytes>, &[Lexeme]), ParseFault>
    ensures { Gives (λ x. (x.0, x.1.now)) result (blob_behind keyword input.now) }
{
    match after_word(input, keyword) {
        Some(rest) => {
            let (bytes, rest) = blob(alloc, rest)?;
            Ok((Some(bytes), rest))
        }
        None => Ok((None, input)),
    }
}

/// Whether the word stands here.
#[tactic(auto, unfolding(crate::specs::Inner::Reading::flag_at))]
pub fn flag(input: &[Lexeme], keyword: Keyword) -> (bool, &[Lexeme])
    ensures { flag_at keyword input.now ≡ Some (result.0, result.1.now) }
{
    match after_word(input, keyword) {
        Some(rest) => (true, rest),
        None => (false, input),
    }
}
