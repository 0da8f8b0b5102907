//! The terms of a statement's key, and the names that it uses.

ghost use Rattle.std.specs.Prelude.{◌≡◌, ◌||◌, false};
ghost use Rattle.std.specs.List.{list_any};
ghost use Rattle.std.specs.Option.{option_copied, option_map_or};
ghost use Rattle.cas_terms.specs.Columns.{is_unknown};
ghost use Rattle.cas_where.specs.Inner.Sources.{terms_of};
ghost use Rattle.cas_mentions.specs.Mentions.{picked_name};
ghost use Rattle.cas_reasons.specs.Statements.{key_terms_of, other_name, assignment_names, names_used};
ghost use Rattle.cql_parse.specs.declared.syntax.Statement.TheVariants as statements;

use cas_mentions::{picked_name, picks_in, relations_of};
use cas_terms::is_unknown;
use cas_types::{Column, Text};
use cas_where::KeyTerms;
use cql_parse::{
    Assigned, Assignment, ColumnOrder, Delete, Pick, Relation, Select, Statement, Target, Update,
};

/// Where the statement gives its columns their terms.
#[tactic(auto, unfolding(crate::specs::Statements::key_terms_of))]
pub fn key_terms_of(statement: &Statement) -> KeyTerms<'_>
    ensures { terms_of result ≡ key_terms_of statement.now }
{
    match statement {
        Statement::Insert(insert) => {
            KeyTerms::Insert(insert.columns.as_slice(), insert.values.as_slice())
        }
        Statement::Create(_)
        | Statement::Alter(_)
        | Statement::Update(_)
        | Statement::Delete(_)
        | Statement::Select(_) => KeyTerms::Where(relations_of(statement)),
    }
}

/// The name of another column in what is assigned.
#[tactic(auto, unfolding(crate::specs::Statements::other_name))]
pub(crate) fn other_name(value: &Assigned) -> Option<&str>
    ensures { option_copied result ≡ other_name value.now }
{
    match value {
        Assigned::Whole(_) => None,
        Assigned::Append(name, _) => Some(name.as_str()),
        Assigned::Prepend(_, name) => Some(name.as_str()),
        Assigned::Remove(name, _) => Some(name.as_str()),
        Assigned::Entry(_, _) => None,
    }
}

fn names_unknown(columns: &[Column], names: &[Text]) -> bool
    ensures { result ≡ list_any (is_unknown columns.now) names.now }
{
    names.iter().any(|n| is_unknown(columns, n.as_str()))
}

fn is_unknown_if_any(columns: &[Column], name: Option<&str>) -> bool
    ensures { result ≡ option_map_or (is_unknown columns.now) (option_copied name.entry) false }
{
    match name {
        Some(name) => is_unknown(columns, name),
        None => false,
    }
}

#[tactic(auto, using(crate::proofs::Used::any_of_assignment))]
fn assignment_is_unknown(columns: &[Column], assignment: &Assignment) -> bool
    ensures { result ≡ list_any (is_unknown columns.now) (assignment_names assignment.now) }
{
    is_unknown(columns, assignment.column.as_str())
        || is_unknown_if_any(columns, other_name(&assignment.value))
}

fn assignments_unknown(columns: &[Column], assignments: &[Assignment]) -> bool
    ensures { result ≡ list_any (λ a. list_any (is_unknown columns.now) (assignment_names a)) assignments.now }
{
    assignments
        .iter()
        .any(|a| assignment_is_unknown(columns, a))
}

fn relations_unknown(columns: &[Column], relations: &[Relation]) -> bool
    ensures { result ≡ list_any (λ r. is_unknown columns.now r.column) relations.now }
{
    relations
        .iter()
        .any(|r| is_unknown(columns, r.column.as_str()))
}

fn targets_unknown(columns: &[Column], targets: &[Target]) -> bool
    ensures { result ≡ list_any (λ t. is_unknown columns.now t.column) targets.now }
{
    targets
        .iter()
        .any(|t| is_unknown(columns, t.column.as_str()))
}

fn picks_unknown(columns: &[Column], picks: &[Pick]) -> bool
    ensures { result ≡ list_any (λ p. is_unknown columns.now (picked_name p)) picks.now }
{
    picks.iter().any(|p| is_unknown(columns, picked_name(p)))
}

fn orders_unknown(columns: &[Column], orders: &[ColumnOrder]) -> bool
    ensures { result ≡ list_any (λ o. is_unknown columns.now o.name) orders.now }
{
    orders.iter().any(|o| is_unknown(columns, o.name.as_str()))
}

#[tactic(auto, using(crate::proofs::Used::any_in_update))]
fn update_unknown(columns: &[Column], update: &Update) -> bool
    ensures { result ≡ list_any (is_unknown columns.now) (names_used (statements.Update update.now)) }
{
    assignments_unknown(columns, update.assignments.as_slice())
        || relations_unknown(columns, update.relations.as_slice())
}

#[tactic(auto, using(crate::proofs::Used::any_in_delete))]
fn delete_unknown(columns: &[Column], delete: &Delete) -> bool
    ensures { result ≡ list_any (is_unknown columns.now) (names_used (statements.Delete delete.now)) }
{
    targets_unknown(columns, delete.targets.as_slice())
        || relations_unknown(columns, delete.relations.as_slice())
}

#[tactic(auto, using(crate::proofs::Used::any_in_select))]
fn select_unknown(columns: &[Column], select: &Select) -> bool
    ensures { result ≡ list_any (is_unknown columns.now) (names_used (statements.Select select.now)) }
{
    picks_unknown(columns, picks_in(&select.picks))
        || (relations_unknown(columns, select.relations.as_slice())
            || orders_unknown(columns, select.order.as_slice()))
}

/// Whether one of the names that the statement uses is of no column.
#[tactic(auto, unfolding(crate::specs::Statements::names_used))]
pub(crate) fn uses_unknown(columns: &[Column], statement: &Statement) -> bool
    ensures { result ≡ list_any (is_unknown columns.now) (names_used statement.now) }
{
    match statement {
        Statement::Insert(insert) => names_unknown(columns, insert.columns.as_slice()),
        Statement::Update(update) => update_unknown(columns, update),
        Statement::Delete(delete) => delete_unknown(columns, delete),
        Statement::Select(select) => select_unknown(columns, select),
        Statement::Create(_) | Statement::Alter(_) => false,
    }
}
