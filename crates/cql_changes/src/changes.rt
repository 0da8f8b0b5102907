//! INSERT, UPDATE and DELETE, each after its first word.

ghost use Rattle.std.specs.Prelude.{◌≡◌};
ghost use Rattle.cql_phrases.specs.Inner.Reading.{Gives};
ghost use Rattle.cql_changes.specs.Inner.ChangeReading.{insert_at, name_comes, entry_assigned, literal_assigned, changed, name_assigned};
ghost use Rattle.cql_changes.specs.Inner.ChangeReading.{term_assigned, right_side, assigned_at, update_at, targets_at, timestamp_at, delete_at};

use crate::syntax::{Assigned, Assignment, Delete, Insert, Relation, Target, Update, Use};
use cas_types::{List, Text};
use cql_lex::Mark;
use cql_phrases::front::{
    after_mark, after_open_bracket, after_word, close_bracket, is_reserved, mark, name, number,
    word,
};
use cql_phrases::lists::{Part, Separator, in_parens, list, list_behind};
use cql_phrases::terms::{constant, literal, opens};
use cql_phrases::{Keyword, Lexeme, ParseFault, Term};
use cql_tables::clauses::table;
use std::alloc::Global;

/// What follows INSERT.
#[tactic(auto, unfolding(crate::specs::Inner::ChangeReading::insert_at))]
pub fn insert(alloc: Global, input: &[Lexeme]) -> Result<(Insert, &[Lexeme]), ParseFault>
    ensures { Gives (λ x. (x.0, x.1.now)) result (insert_at input.now) }
{
    let rest = word(input, Keyword::Into)?;
    let (table, rest) = table(alloc, rest)?;
    let (columns, rest) = in_parens::<Text>(alloc, rest)?;
    let rest = word(rest, Keyword::Values)?;
    let (values, rest) = in_parens::<Term>(alloc, rest)?;
    let (uses, rest) = list_behind::<Use>(alloc, Keyword::Using, Separator::And, rest)?;
    let insert = Insert {
        table,
        columns,
        values,
        uses,
    };
    Ok((insert, rest))
}

/// Whether a name stands here.
#[tactic(auto, unfolding(crate::specs::Inner::ChangeReading::name_comes))]
fn name_comes(input: &[Lexeme]) -> bool
    ensures { result ≡ name_comes input.now }
{
    match input {
        [Lexeme::Word(name), _rest @ ..] => !is_reserved(name),
        [Lexeme::Quoted(_text), _rest @ ..] => true,
        _ => false,
    }
}

/// What follows the opening bracket of an entry that is assigned.
#[tactic(auto, unfolding(crate::specs::Inner::ChangeReading::entry_assigned))]
fn entry_assigned(alloc: Global, input: &[Lexeme]) -> Result<(Assigned, &[Lexeme]), ParseFault>
    ensures { Gives (λ x. (x.0, x.1.now)) result (entry_assigned input.now) }
{
    let (key, rest) = constant(alloc, input)?;
    let rest = close_bracket(rest)?;
    let rest = mark(rest, Mark::Equals)?;
    let (value, rest) = Term::read(alloc, rest)?;
    Ok((Assigned::Entry(key, value), rest))
}

/// A right side that begins with a literal.
#[tactic(auto, unfolding(crate::specs::Inner::ChangeReading::literal_assigned))]
fn literal_assigned(alloc: Global, input: &[Lexeme]) -> Result<(Assigned, &[Lexeme]), ParseFault>
    ensures { Gives (λ x. (x.0, x.1.now)) result (literal_assigned input.now) }
{
    let (value, rest) = literal(alloc, input)?;
    match after_mark(rest, Mark::Plus) {
        Some(after) => {
            let (source, rest) = name(alloc, after)?;
            Ok((Assigned::Prepend(value, source), rest))
        }
        None => Ok((Assigned::Whole(Term::Literal(value)), rest)),
    }
}

/// What follows the name on a right side.
#[tactic(auto, unfolding(crate::specs::Inner::ChangeReading::changed))]
fn changed(
    alloc: Global,
    source: Text,
    input: &[Lexeme],
) -> Result<(Assigned, &[Lexeme]), ParseFault>
    ensures { Gives (λ x. (x.0, x.1.now)) result (changed source input.now) }
{
    match after_mark(input, Mark::Plus) {
        Some(rest) => {
            let (value, rest) = literal(alloc, rest)?;
            Ok((Assigned::Append(source, value), rest))
        }
        None => {
            let rest = mark(input, Mark::Minus)?;
            let (value, rest) = literal(alloc, rest)?;
            Ok((Assigned::Remove(source, value), rest))
        }
    }
}

#[tactic(auto, unfolding(crate::specs::Inner::ChangeReading::name_assigned))]
fn name_assigned(alloc: Global, input: &[Lexeme]) -> Result<(Assigned, &[Lexeme]), ParseFault>
    ensures { Gives (λ x. (x.0, x.1.now)) result (name_assigned input.now) }
{
    let (source, rest) = name(alloc, input)?;
    changed(alloc, source, rest)
}

#[tactic(auto, unfolding(crate::specs::Inner::ChangeReading::term_assigned))]
fn term_assigned(alloc: Global, input: &[Lexeme]) -> Result<(Assigned, &[Lexeme]), ParseFault>
    ensures { Gives (λ x. (x.0, x.1.now)) result (term_assigned input.now) }
{
    let (value, rest) = Term::read(alloc, input)?;
    Ok((Assigned::Whole(value), rest))
}

#[tactic(auto, unfolding(crate::specs::Inner::ChangeReading::right_side))]
fn right_side(alloc: Global, input: &[Lexeme]) -> Result<(Assigned, &[Lexeme]), ParseFault>
    ensures { Gives (λ x. (x.0, x.1.now)) result (right_side input.now) }
{
    if opens(input) {
        literal_assigned(alloc, input)
    } else if name_comes(input) {
        name_assigned(alloc, input)
    } else {
        term_assigned(alloc, input)
    }
}

#[tactic(auto, unfolding(crate::specs::Inner::ChangeReading::assigned_at))]
fn assigned(alloc: Global, input: &[Lexeme]) -> Result<(Assigned, &[Lexeme]), ParseFault>
    ensures { Gives (λ x. (x.0, x.1.now)) result (assigned_at input.now) }
{
    match after_open_bracket(input) {
        Some(rest) => entry_assigned(alloc, rest),
        None => {
            let rest = mark(input, Mark::Equals)?;
            right_side(alloc, rest)
        }
    }
}

impl Part for Assignment {
    ghost use Rattle.cql_changes.specs.Inner.ChangeReading.{assignment_at};

    ghost reads = { assignment_at };

    #[tactic(auto, unfolding(crate::specs::Inner::ChangeReading::assignment_at))]
    fn read(alloc: Global, input: &[Lexeme]) -> Result<(Self, &[Lexeme]), ParseFault> {
        let (column, rest) = name(alloc, input)?;
        let (value, rest) = assigned(alloc, rest)?;
        Ok((Assignment { column, value }, rest))
    }
}

/// What follows UPDATE.
#[tactic(auto, unfolding(crate::specs::Inner::ChangeReading::update_at))]
pub fn update(alloc: Global, input: &[Lexeme]) -> Result<(Update, &[Lexeme]), ParseFault>
    ensures { Gives (λ x. (x.0, x.1.now)) result (update_at input.now) }
{
    let (table, rest) = table(alloc, input)?;
    let (uses, rest) = list_behind::<Use>(alloc, Keyword::Using, Separator::And, rest)?;
    let rest = word(rest, Keyword::Set)?;
    let (assignments, rest) = list::<Assignment>(alloc, Separator::Comma, rest)?;
    let rest = word(rest, Keyword::Where)?;
    let (relations, rest) = list::<Relation>(alloc, Separator::And, rest)?;
    let update = Update {
        table,
        uses,
        assignments,
        relations,
    };
    Ok((update, rest))
}

impl Part for Target {
    ghost use Rattle.cql_changes.specs.Inner.ChangeReading.{target_at};

    ghost reads = { target_at };

    #[tactic(auto, unfolding(crate::specs::Inner::ChangeReading::target_at))]
    fn read(alloc: Global, input: &[Lexeme]) -> Result<(Self, &[Lexeme]), ParseFault> {
        let (column, rest) = name(alloc, input)?;
        match after_open_bracket(rest) {
            Some(after) => {
                let (key, rest) = constant(alloc, after)?;
                let rest = close_bracket(rest)?;
                let key = Some(key);
                Ok((Target { column, key }, rest))
            }
            None => Ok((Target { column, key: None }, rest)),
        }
    }
}

#[tactic(auto, unfolding(crate::specs::Inner::ChangeReading::targets_at))]
fn targets(alloc: Global, input: &[Lexeme]) -> Result<(List<Target>, &[Lexeme]), ParseFault>
    ensures { Gives (λ x. (x.0, x.1.now)) result (targets_at input.now) }
{
    match after_word(input, Keyword::From) {
        Some(_after) => Ok((List::from_vec(Vec::new(alloc)), input)),
        None => list::<Target>(alloc, Separator::Comma, input),
    }
}

#[tactic(auto, unfolding(crate::specs::Inner::ChangeReading::timestamp_at))]
fn timestamp(input: &[Lexeme]) -> Result<(Option<i128>, &[Lexeme]), ParseFault>
    ensures { Gives (λ x. (x.0, x.1.now)) result (timestamp_at input.now) }
{
    match after_word(input, Keyword::Using) {
        Some(rest) => {
            let rest = word(rest, Keyword::Timestamp)?;
            let (n, rest) = number(rest)?;
            Ok((Some(n), rest))
        }
        None => Ok((None, input)),
    }
}

/// What follows DELETE.
#[tactic(auto, unfolding(crate::specs::Inner::ChangeReading::delete_at))]
pub fn delete(alloc: Global, input: &[Lexeme]) -> Result<(Delete, &[Lexeme]), ParseFault>
    ensures { Gives (λ x. (x.0, x.1.now)) result (delete_at input.now) }
{
    let (targets, rest) = targets(alloc, input)?;
    let rest = word(rest, Keyword::From)?;
    let (table, rest) = table(alloc, rest)?;
    let (timestamp, rest) = timestamp(rest)?;
    let rest = word(rest, Keyword::Where)?;
    let (relations, rest) = list::<Relation>(alloc, Separator::And, rest)?;
    let delete = Delete {
        targets,
        table,
        timestamp,
        relations,
    };
    Ok((delete, rest))
}
