//! Constants, terms and the literals of collections.

ghost use Rattle.std.specs.Prelude.{◌≡◌};
ghost use Rattle.cql_phrases.specs.Inner.Reading.{Gives};
ghost use Rattle.cql_phrases.specs.Inner.TermReading.{truth_of, constant_at, opens, element_at, pair_at, set_from, map_from, set_or_map, braces_at};
ghost use Rattle.cql_phrases.specs.Inner.TermReading.{some_elements, brackets_at, literal_at, term_at, setting_at};

use crate::fault::ParseFault;
use crate::front::{
    after_close_brace, after_close_bracket, after_mark, after_word, close_brace, close_bracket,
    is_spelt, mark,
};
use crate::keyword::Keyword;
use crate::lexeme::Lexeme;
use crate::lists::{Part, Separator, list, list_from, only};
use crate::nested::nested;
use crate::term::{Constant, Element, Entry, Literal, Setting, Term};
use cas_types::List;
use cql_lex::{Mark, Name};
use std::alloc::Global;

#[tactic(auto, unfolding(crate::specs::Inner::TermReading::truth_of))]
fn truth_of(name: &Name) -> Option<bool>
    ensures { result ≡ truth_of name.now }
{
    if is_spelt(name, Keyword::True) {
        Some(true)
    } else if is_spelt(name, Keyword::False) {
        Some(false)
    } else {
        None
    }
}

/// A constant.
#[tactic(auto, unfolding(crate::specs::Inner::TermReading::constant_at))]
#[inline(always)]
pub fn constant(alloc: Global, input: &[Lexeme]) -> Result<(Constant, &[Lexeme]), ParseFault>
    ensures { Gives (λ x. (x.0, x.1.now)) result (constant_at input.now) }
{
    match input {
        [Lexeme::Text(text), rest @ ..] => Ok((Constant::Text(text.clone()?), rest)),
        [Lexeme::Number(n), rest @ ..] => Ok((Constant::Number(*n), rest)),
        [Lexeme::Blob(bytes), rest @ ..] => Ok((Constant::Blob(bytes.clone()?), rest)),
        [Lexeme::Uuid(uuid), rest @ ..] => Ok((Constant::Uuid(*uuid), rest)),
        [Lexeme::Word(name), rest @ ..] => match truth_of(name) {
            Some(truth) => Ok((Constant::Boolean(truth), rest)),
            None => Err(ParseFault::Syntax),
        },
        _ => Err(ParseFault::Syntax),
    }
}

/// Whether a literal begins here.
#[tactic(auto, unfolding(crate::specs::Inner::TermReading::opens))]
#[inline(always)]
pub fn opens(input: &[Lexeme]) -> bool
    ensures { result ≡ opens input.now }
{
    matches!(input, [Lexeme::OpenBracket(_) | Lexeme::OpenBrace(_), ..])
}

impl Part for Element {
    ghost use Rattle.cql_phrases.specs.Inner.TermReading.{element_at};

    ghost reads = { element_at };

    #[tactic(auto, unfolding(crate::specs::Inner::TermReading::element_at))]
    fn read(alloc: Global, input: &[Lexeme]) -> Result<(Self, &[Lexeme]), ParseFault> {
        if let Some(rest) = after_word(input, Keyword::Null) {
            return Ok((Element::Null, rest));
        }
        if opens(input) {
            let (span, rest) = nested(alloc, input)?;
            return Ok((Element::Nested(span), rest));
        }
        let (value, rest) = constant(alloc, input)?;
        Ok((Element::Constant(value), rest))
    }
}

impl Part for Entry {
    ghost use Rattle.cql_phrases.specs.Inner.TermReading.{pair_at};

    ghost reads = { pair_at };

    #[tactic(auto, unfolding(crate::specs::Inner::TermReading::pair_at))]
    fn read(alloc: Global, input: &[Lexeme]) -> Result<(Self, &[Lexeme]), ParseFault> {
        let (key, rest) = Element::read(alloc, input)?;
        let rest = mark(rest, Mark::Colon)?;
        let (value, rest) = Element::read(alloc, rest)?;
        Ok((Entry { key, value }, rest))
    }
}

#[tactic(auto, unfolding(crate::specs::Inner::TermReading::set_from))]
fn set_from(
    alloc: Global,
    first: Element,
    input: &[Lexeme],
) -> Result<(Literal, &[Lexeme]), ParseFault>
    ensures { Gives (λ x. (x.0, x.1.now)) result (set_from first input.now) }
{
    let (elements, rest) = list_from(alloc, Separator::Comma, only(alloc, first)?, input)?;
    let rest = close_brace(rest)?;
    Ok((Literal::SetOf(elements), rest))
}

#[tactic(auto, unfolding(crate::specs::Inner::TermReading::map_from))]
fn map_from(
    alloc: Global,
    key: Element,
    input: &[Lexeme],
) -> Result<(Literal, &[Lexeme]), ParseFault>
    ensures { Gives (λ x. (x.0, x.1.now)) result (map_from key input.now) }
{
    let (value, rest) = Element::read(alloc, input)?;
    let (entries, rest) = list_from(
        alloc,
        Separator::Comma,
        only(alloc, Entry { key, value })?,
        rest,
    )?;
    let rest = close_brace(rest)?;
    Ok((Literal::MapOf(entries), rest))
}

/// What follows an opening brace and isn't its closing one: a map where a colon follows the first
/// term.
#[tactic(auto, unfolding(crate::specs::Inner::TermReading::set_or_map))]
fn set_or_map(alloc: Global, input: &[Lexeme]) -> Result<(Literal, &[Lexeme]), ParseFault>
    ensures { Gives (λ x. (x.0, x.1.now)) result (set_or_map input.now) }
{
    let (first, rest) = Element::read(alloc, input)?;
    match after_mark(rest, Mark::Colon) {
        Some(after) => map_from(alloc, first, after),
        None => set_from(alloc, first, rest),
    }
}

#[tactic(auto, unfolding(crate::specs::Inner::TermReading::braces_at))]
fn braces(alloc: Global, input: &[Lexeme]) -> Result<(Literal, &[Lexeme]), ParseFault>
    ensures { Gives (λ x. (x.0, x.1.now)) result (braces_at input.now) }
{
    match after_close_brace(input) {
        Some(rest) => Ok((Literal::Braces, rest)),
        None => set_or_map(alloc, input),
    }
}

#[tactic(auto, unfolding(crate::specs::Inner::TermReading::some_elements))]
fn some_elements(alloc: Global, input: &[Lexeme]) -> Result<(Literal, &[Lexeme]), ParseFault>
    ensures { Gives (λ x. (x.0, x.1.now)) result (some_elements input.now) }
{
    let (elements, rest) = list::<Element>(alloc, Separator::Comma, input)?;
    let rest = close_bracket(rest)?;
    Ok((Literal::ListOf(elements), rest))
}

#[tactic(auto, unfolding(crate::specs::Inner::TermReading::brackets_at))]
fn brackets(alloc: Global, input: &[Lexeme]) -> Result<(Literal, &[Lexeme]), ParseFault>
    ensures { Gives (λ x. (x.0, x.1.now)) result (brackets_at input.now) }
{
    match after_close_bracket(input) {
        Some(rest) => Ok((Literal::ListOf(List::from_vec(Vec::new(alloc))), rest)),
        None => some_elements(alloc, input),
    }
}

/// The literal of a collection.
#[tactic(auto, unfolding(crate::specs::Inner::TermReading::literal_at))]
pub fn literal(alloc: Global, input: &[Lexeme]) -> Result<(Literal, &[Lexeme]), ParseFault>
    ensures { Gives (λ x. (x.0, x.1.now)) result (literal_at input.now) }
{
    match input {
        [Lexeme::OpenBracket(_), rest @ ..] => brackets(alloc, rest),
        [Lexeme::OpenBrace(_), rest @ ..] => braces(alloc, rest),
        _ => Err(ParseFault::Syntax),
    }
}

impl Part for Term {
    ghost use Rattle.cql_phrases.specs.Inner.TermReading.{term_at};

    ghost reads = { term_at };

    #[tactic(auto, unfolding(crate::specs::Inner::TermReading::term_at))]
    #[inline(always)]
    fn read(alloc: Global, input: &[Lexeme]) -> Result<(Self, &[Lexeme]), ParseFault> {
        if let Some(rest) = after_word(input, Keyword::Null) {
            return Ok((Term::Null, rest));
        }
        if opens(input) {
            let (value, rest) = literal(alloc, input)?;
            return Ok((Term::Literal(value), rest));
        }
        let (value, rest) = constant(alloc, input)?;
        Ok((Term::Constant(value), rest))
    }
}

/// A key or a value in an option's map.
#[tactic(auto, unfolding(crate::specs::Inner::TermReading::setting_at))]
pub fn setting(alloc: Global, input: &[Lexeme]) -> Result<(Setting, &[Lexeme]), ParseFault>
    ensures { Gives (λ x. (x.0, x.1.now)) result (setting_at input.now) }
{
    match input {
        [Lexeme::Text(text), rest @ ..] => Ok((Setting::Text(text.clone()?), rest)),
        [Lexeme::Number(n), rest @ ..] => Ok((Setting::Number(*n), rest)),
        [Lexeme::Ratio(n), rest @ ..] => Ok((Setting::Ratio(*n), rest)),
        _ => Err(ParseFault::Syntax),
    }
}
