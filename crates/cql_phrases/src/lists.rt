//! Lists of one thing or more, with commas or AND between.

ghost use Rattle.std.specs.Prelude.{◌≡◌, [], ◌∷◌, option_map, IfOk};
ghost use Rattle.cql_phrases.specs.Inner.Reading.{Gives, after_separator, from_at, in_parens, list_at, list_behind};

use crate::fault::ParseFault;
use crate::front::{after_mark, after_word, mark, name};
use crate::keyword::Keyword;
use crate::lexeme::Lexeme;
use cas_types::{List, Mem, Text};
use cql_lex::Mark;
use std::alloc::Global;

/// Room for the things of most lists.
const USUAL: usize = 4;

/// What stands between the things of a list.
#[derive(Clone, Copy)]
pub enum Separator {
    Comma,
    And,
}

#[tactic(auto, unfolding(crate::specs::Inner::Reading::after_separator))]
fn after_separator(input: &[Lexeme], separator: Separator) -> Option<&[Lexeme]>
    ensures { option_map (λ r. r.now) result ≡ after_separator separator input.now }
{
    match separator {
        Separator::Comma => after_mark(input, Mark::Comma),
        Separator::And => after_word(input, Keyword::And),
    }
}

/// What lists are made of.
pub trait Part: Sized {
    ghost use Rattle.std.specs.Prelude.{List, Option};
    ghost use Rattle.cql_phrases.specs.declared.lexeme.Lexeme.{Lexeme};
    ghost use Rattle.cql_phrases.specs.Inner.Reading.{Gives};

    ghost reads: { List Lexeme → Option (Self × List Lexeme) };

    fn read(alloc: Global, input: &[Lexeme]) -> Result<(Self, &[Lexeme]), ParseFault>
        ensures { Gives (λ x. (x.0, x.1.now)) result (reads input.now) };
}

impl Part for Text {
    ghost use Rattle.cql_phrases.specs.Inner.Reading.{name_at};

    ghost reads = { name_at };

    fn read(alloc: Global, input: &[Lexeme]) -> Result<(Self, &[Lexeme]), ParseFault> {
        name(alloc, input)
    }
}

/// The things of which some are read already and the others follow, each after a separator. There
/// are fewer than lexemes.
#[tactic(auto, unfolding(crate::specs::Inner::Reading::from_at))]
pub fn list_from<X: Part + Drop>(
    alloc: Global,
    separator: Separator,
    front: Vec<X>,
    input: &[Lexeme],
) -> Result<(List<X>, &[Lexeme]), ParseFault>
    ensures { Gives (λ x. (x.0, x.1.now)) result (from_at separator X.reads front.items input.now) }
{
    let mut items = front;
    let mut rest = input;
    for _ in 0..input.len() {
        match after_separator(rest, separator) {
            None => return Ok((List::from_vec(items), rest)),
            Some(after) => {
                let (item, left) = X::read(alloc, after)?;
                items.push(item)?;
                rest = left;
            }
        }
    }
    Ok((List::from_vec(items), rest))
}

/// The thing alone.
#[inline(always)]
pub fn only<X: Drop>(alloc: Global, thing: X) -> Result<Vec<X>, Mem>
    ensures { IfOk result (λ v. v.items ≡ thing ∷ []) }
{
    let mut items = Vec::with_capacity(alloc, USUAL)?;
    items.push(thing)?;
    Ok(items)
}

/// One thing or more, with the separator between.
#[tactic(auto, unfolding(crate::specs::Inner::Reading::list_at))]
#[inline(always)]
pub fn list<X: Part + Drop>(
    alloc: Global,
    separator: Separator,
    input: &[Lexeme],
) -> Result<(List<X>, &[Lexeme]), ParseFault>
    ensures { Gives (λ x. (x.0, x.1.now)) result (list_at separator X.reads input.now) }
{
    let (first, rest) = X::read(alloc, input)?;
    list_from(alloc, separator, only(alloc, first)?, rest)
}

/// A list after a word, or none.
#[tactic(auto, unfolding(crate::specs::Inner::Reading::list_behind))]
pub fn list_behind<X: Part + Drop>(
    alloc: Global,
    keyword: Keyword,
    separator: Separator,
    input: &[Lexeme],
) -> Result<(List<X>, &[Lexeme]), ParseFault>
    ensures { Gives (λ x. (x.0, x.1.now)) result (list_behind keyword separator X.reads input.now) }
{
    match after_word(input, keyword) {
        Some(rest) => list(alloc, separator, rest),
        None => Ok((List::from_vec(Vec::new(alloc)), input)),
    }
}

/// A list with commas, in parentheses.
#[tactic(auto, unfolding(crate::specs::Inner::Reading::in_parens))]
pub fn in_parens<X: Part + Drop>(
    alloc: Global,
    input: &[Lexeme],
) -> Result<(List<X>, &[Lexeme]), ParseFault>
    ensures { Gives (λ x. (x.0, x.1.now)) result (in_parens X.reads input.now) }
{
    let rest = mark(input, Mark::OpenParen)?;
    let (items, rest) = list(alloc, Separator::Comma, rest)?;
    let rest = mark(rest, Mark::CloseParen)?;
    Ok((items, rest))
}
