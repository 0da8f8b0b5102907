//! What columns are given and asked that isn't of their types.

ghost use Rattle.std.specs.Prelude.{◌≡◌};
ghost use Rattle.std.specs.List.{list_any, zip};
ghost use Rattle.cas_mentions.specs.Inner.Borrowed.{change_in};
ghost use Rattle.cas_mentions.specs.ColumnFaults.{target_fits, has_writetime, pick_fits, mention_fits, is_of_another_type};
ghost use Rattle.cas_mentions.specs.Mentions.{changes, compares, shows, assigns, deletes};
ghost use Rattle.cas_mentions.specs.Mentions.{inserted, picked_name, changes_of, relations_of, shown_by, terms_used};

use crate::change::RowChange;
use crate::parts::{picked_name, relations_of, shown_by};
use cas_terms::{assigned_fits, column_named, key_fits, term_fits};
use cas_types::{Column, Text};
use cql_parse::{Assignment, Constant, Pick, Relation, Statement, Target, Term};

fn target_fits(column: &Column, key: &Option<Constant>) -> bool
    ensures { result ≡ target_fits column.now key.now }
{
    match key {
        Some(key) => key_fits(column, key),
        None => true,
    }
}

#[tactic(auto, unfolding(crate::specs::ColumnFaults::mention_fits), using(crate::proofs::Changed::whole_fits))]
fn change_fits(column: &Column, change: RowChange<'_>) -> bool
    ensures { result ≡ mention_fits column.now (changes (change_in change.entry)) }
{
    match change {
        RowChange::Insert(term) => term_fits(column, term),
        RowChange::Assign(value) => assigned_fits(column, value),
        RowChange::Delete(key) => target_fits(column, key),
    }
}

#[tactic(auto, unfolding(crate::specs::ColumnFaults::is_of_another_type))]
fn change_is_of_another_type(columns: &[Column], name: &str, change: RowChange<'_>) -> bool
    ensures { result ≡ is_of_another_type columns.now (name.now, changes (change_in change.entry)) }
{
    match column_named(columns, name) {
        Some(column) => !change_fits(column, change),
        None => false,
    }
}

fn has_writetime(column: &Column) -> bool
    ensures { result ≡ has_writetime column.now }
{
    column.shape.is_plain() && !column.kind.is_key()
}

#[tactic(auto, unfolding(crate::specs::ColumnFaults::pick_fits))]
fn pick_fits(column: &Column, pick: &Pick) -> bool
    ensures { result ≡ pick_fits column.now pick.now }
{
    match pick {
        Pick::Value(_) => true,
        Pick::WriteTime(_) => has_writetime(column),
        Pick::Ttl(_) => has_writetime(column),
    }
}

#[tactic(auto, unfolding(crate::specs::ColumnFaults::is_of_another_type, crate::specs::ColumnFaults::mention_fits))]
fn pick_is_of_another_type(columns: &[Column], pick: &Pick) -> bool
    ensures { result ≡ is_of_another_type columns.now (picked_name pick.now, shows pick.now) }
{
    match column_named(columns, picked_name(pick)) {
        Some(column) => !pick_fits(column, pick),
        None => false,
    }
}

#[tactic(auto, unfolding(crate::specs::ColumnFaults::is_of_another_type, crate::specs::ColumnFaults::mention_fits))]
fn relation_is_of_another_type(columns: &[Column], relation: &Relation) -> bool
    ensures { result ≡ is_of_another_type columns.now (relation.now.column, compares relation.now.value) }
{
    match column_named(columns, relation.column.as_str()) {
        Some(column) => !term_fits(column, &relation.value),
        None => false,
    }
}

fn values_of_another_type(columns: &[Column], names: &[Text], terms: &[Term]) -> bool
    ensures { result ≡ list_any (λ p. is_of_another_type columns.now ((inserted p).0, changes (inserted p).1)) (zip names.now terms.now) }
{
    names.iter().zip(terms.iter()).any(|(n, t)| change_is_of_another_type(
        columns,
        n.as_str(),
        RowChange::Insert(t),
    ))
}

fn assignments_of_another_type(columns: &[Column], assignments: &[Assignment]) -> bool
    ensures { result ≡ list_any (λ a. is_of_another_type columns.now (a.column, changes (assigns a.value))) assignments.now }
{
    assignments.iter().any(|a| change_is_of_another_type(
        columns,
        a.column.as_str(),
        RowChange::Assign(&a.value),
    ))
}

fn targets_of_another_type(columns: &[Column], targets: &[Target]) -> bool
    ensures { result ≡ list_any (λ t. is_of_another_type columns.now (t.column, changes (deletes t.key))) targets.now }
{
    targets.iter().any(|t| change_is_of_another_type(
        columns,
        t.column.as_str(),
        RowChange::Delete(&t.key),
    ))
}

#[tactic(auto, using(crate::proofs::Used::any_map), unfolding(crate::specs::Mentions::changes_of))]
fn changes_of_another_type(columns: &[Column], statement: &Statement) -> bool
    ensures { result ≡ list_any (λ q. is_of_another_type columns.now (q.0, changes q.1)) (changes_of statement.now) }
{
    match statement {
        Statement::Insert(insert) => {
            values_of_another_type(columns, insert.columns.as_slice(), insert.values.as_slice())
        }
        Statement::Update(update) => {
            assignments_of_another_type(columns, update.assignments.as_slice())
        }
        Statement::Delete(delete) => targets_of_another_type(columns, delete.targets.as_slice()),
        Statement::Create(_) | Statement::Alter(_) | Statement::Select(_) => false,
    }
}

fn relations_of_another_type(columns: &[Column], relations: &[Relation]) -> bool
    ensures { result ≡ list_any (λ r. is_of_another_type columns.now (r.column, compares r.value)) relations.now }
{
    relations
        .iter()
        .any(|r| relation_is_of_another_type(columns, r))
}

fn picks_of_another_type(columns: &[Column], picks: &[Pick]) -> bool
    ensures { result ≡ list_any (λ k. is_of_another_type columns.now (picked_name k, shows k)) picks.now }
{
    picks.iter().any(|p| pick_is_of_another_type(columns, p))
}

/// Whether the statement gives a column, or asks of it, what isn't of its type.
#[tactic(auto, using(crate::proofs::Used::any_term))]
pub fn uses_another_type(columns: &[Column], statement: &Statement) -> bool
    ensures { result ≡ list_any (is_of_another_type columns.now) (terms_used statement.now) }
{
    changes_of_another_type(columns, statement)
        || (relations_of_another_type(columns, relations_of(statement))
            || picks_of_another_type(columns, shown_by(statement)))
}
