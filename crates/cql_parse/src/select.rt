//! SELECT, after its first word.

ghost use Rattle.std.specs.Prelude.{◌≡◌, option_map};
ghost use Rattle.cql_phrases.specs.Inner.Reading.{Gives};
ghost use Rattle.cql_parse.specs.Inner.StatementReading.{after_call, called, picks_at, order_at, select_at};

use crate::syntax::{ColumnOrder, Pick, Picks, Relation, Select};
use cas_types::{List, Text};
use cql_lex::Mark;
use cql_phrases::front::{after_mark, after_word, blob_behind, mark, name, number_behind, word};
use cql_phrases::lists::{Part, Separator, list, list_behind};
use cql_phrases::{Keyword, Lexeme, ParseFault};
use cql_tables::clauses::table;
use std::alloc::Global;

/// What follows the word and a parenthesis, where they stand first.
#[tactic(auto, unfolding(crate::specs::Inner::StatementReading::after_call))]
fn after_call(input: &[Lexeme], keyword: Keyword) -> Option<&[Lexeme]>
    ensures { option_map (λ r. r.now) result ≡ after_call keyword input.now }
{
    match after_word(input, keyword) {
        Some(rest) => after_mark(rest, Mark::OpenParen),
        None => None,
    }
}

/// The column of a call, and its closing parenthesis.
#[tactic(auto, unfolding(crate::specs::Inner::StatementReading::called))]
fn called(alloc: Global, input: &[Lexeme]) -> Result<(Text, &[Lexeme]), ParseFault>
    ensures { Gives (λ x. (x.0, x.1.now)) result (called input.now) }
{
    let (column, rest) = name(alloc, input)?;
    let rest = mark(rest, Mark::CloseParen)?;
    Ok((column, rest))
}

impl Part for Pick {
    ghost use Rattle.cql_parse.specs.Inner.StatementReading.{pick_at};

    ghost reads = { pick_at };

    #[tactic(auto, unfolding(crate::specs::Inner::StatementReading::pick_at))]
    fn read(alloc: Global, input: &[Lexeme]) -> Result<(Self, &[Lexeme]), ParseFault> {
        if let Some(after) = after_call(input, Keyword::WriteTime) {
            let (column, rest) = called(alloc, after)?;
            return Ok((Pick::WriteTime(column), rest));
        }
        if let Some(after) = after_call(input, Keyword::Ttl) {
            let (column, rest) = called(alloc, after)?;
            return Ok((Pick::Ttl(column), rest));
        }
        let (column, rest) = name(alloc, input)?;
        Ok((Pick::Value(column), rest))
    }
}

#[tactic(auto, unfolding(crate::specs::Inner::StatementReading::picks_at))]
fn picks(alloc: Global, input: &[Lexeme]) -> Result<(Picks, &[Lexeme]), ParseFault>
    ensures { Gives (λ x. (x.0, x.1.now)) result (picks_at input.now) }
{
    match after_mark(input, Mark::Star) {
        Some(rest) => Ok((Picks::All, rest)),
        None => {
            let (picks, rest) = list::<Pick>(alloc, Separator::Comma, input)?;
            Ok((Picks::These(picks), rest))
        }
    }
}

#[tactic(auto, unfolding(crate::specs::Inner::StatementReading::order_at))]
fn order(alloc: Global, input: &[Lexeme]) -> Result<(List<ColumnOrder>, &[Lexeme]), ParseFault>
    ensures { Gives (λ x. (x.0, x.1.now)) result (order_at input.now) }
{
    match after_word(input, Keyword::Order) {
        Some(rest) => {
            let rest = word(rest, Keyword::By)?;
            list::<ColumnOrder>(alloc, Separator::Comma, rest)
        }
        None => Ok((List::from_vec(Vec::new(alloc)), input)),
    }
}

/// What follows SELECT.
#[tactic(auto, unfolding(crate::specs::Inner::StatementReading::select_at))]
pub fn select(alloc: Global, input: &[Lexeme]) -> Result<(Select, &[Lexeme]), ParseFault>
    ensures { Gives (λ x. (x.0, x.1.now)) result (select_at input.now) }
{
    let (picks, rest) = picks(alloc, input)?;
    let rest = word(rest, Keyword::From)?;
    let (table, rest) = table(alloc, rest)?;
    let (relations, rest) = list_behind::<Relation>(alloc, Keyword::Where, Separator::And, rest)?;
    let (order, rest) = order(alloc, rest)?;
    let (after, rest) = blob_behind(alloc, rest, Keyword::After)?;
    let (page, rest) = number_behind(rest, Keyword::Page)?;
    let (limit, rest) = number_behind(rest, Keyword::Limit)?;
    let select = Select {
        picks,
        table,
        relations,
        order,
        after,
        page,
        limit,
    };
    Ok((select, rest))
}
